//! The security object.

ghost use Rattle.std.specs.Prelude.{◌≡◌, IfOk, option_map};
ghost use Rattle.mdoc_outside.specs.Borrowed.{content};
ghost use Rattle.cbor_view.specs.Reading.{Gives};
ghost use Rattle.cbor_view.specs.View.{part};
ghost use Rattle.mso_digests.specs.Digests.{digest_at};
ghost use Rattle.mso_digests.specs.Indexed.{IsIndexOf};
ghost use Rattle.mso_digests.specs.MsoView.{contents, object_seen};
ghost use Rattle.mso_digests.specs.Object.{is_sha256, is_version, object, object_of_map, object_with};

use crate::MsoFault;
use crate::contents::{Contents, distinct_keys};
use crate::digests::{digest_in, have_length};
use crate::index::DigestIndex;
use cbor_maps::{MapFault, NamedMap};
use cbor_view::{ENCODED, View};
use mdoc_outside::{KeyName, Memory};
use std::alloc::Global;

/// A mobile security object (ISO/IEC 18013-5, 9.1.2.4), borrowed from the bytes that spell it.
#[derive(Clone, Copy)]
pub struct Mso<'a> {
    doc_type: &'a str,
    digests: View<'a>,
    device_key: View<'a>,
    signed: i64,
    from: i64,
    until: i64,
}

/// The version 1.x.
#[tactic(auto, using(std::proofs::lemmas::Str::Pattern::starts_text))]
fn is_version(version: &str) -> bool
    ensures { result ≡ is_version version.now }
{
    version.starts_with("1.")
}

impl<'a> Mso<'a> {
    /// The object that the payload of an issuer's signature spells: tag 24 over the bytes of its map. Each of the
    /// named keys is there once, and other keys are ignored.
    #[tactic(auto, unfolding(crate::specs::Object::object))]
    pub fn read(raw: &'a [u8]) -> Result<Mso<'a>, MsoFault>
        ensures { Gives object_seen result (object raw.now) }
    {
        let Ok(whole) = View::read(raw) else {
            return Err(MsoFault::Cbor);
        };
        let Some((ENCODED, tagged)) = whole.tag() else {
            return Err(MsoFault::Cbor);
        };
        let Some(inside) = tagged.bytes() else {
            return Err(MsoFault::Cbor);
        };
        match View::read(inside) {
            Ok(map) => Mso::of_map(&map),
            Err(_) => Err(MsoFault::Cbor),
        }
    }

    /// The object of a map MobileSecurityObject.
    fn of_map(map: &View<'a>) -> Result<Mso<'a>, MsoFault>
        ensures { Gives object_seen result (object_of_map (part map.now)) }
    {
        let map = NamedMap::new(
            map,
            &[
                KeyName::Version,
                KeyName::DigestAlgorithm,
                KeyName::ValueDigests,
                KeyName::DeviceKeyInfo,
                KeyName::DocType,
                KeyName::ValidityInfo,
            ],
        );
        match distinct_keys(&map) {
            Ok(()) => {}
            Err(MapFault::Doubled(name)) => return Err(MsoFault::Doubled(name)),
            Err(MapFault::Field(name)) => return Err(MsoFault::Field(name)),
        }
        match Contents::read(&map) {
            Ok(fields) => Mso::with(&fields),
            Err(MapFault::Doubled(name)) => Err(MsoFault::Doubled(name)),
            Err(MapFault::Field(name)) => Err(MsoFault::Field(name)),
        }
    }

    /// The object of these fields, where their values are in order.
    fn with(fields: &Contents<'a>) -> Result<Mso<'a>, MsoFault>
        ensures { Gives object_seen result (object_with (contents fields.now)) }
    {
        if !is_version(fields.version) {
            return Err(MsoFault::Version);
        }
        if fields.algorithm != "SHA-256" {
            return Err(MsoFault::Algorithm);
        }
        if !have_length(fields.digests) {
            return Err(MsoFault::DigestLength);
        }
        let moments = fields.validity.moments()?;
        Ok(Mso {
            doc_type: fields.doc_type,
            digests: fields.digests,
            device_key: fields.device_key,
            signed: moments.signed,
            from: moments.from,
            until: moments.until,
        })
    }

    /// The document type.
    pub fn doc_type(&self) -> &'a str
        ensures { result.now ≡ (object_seen self.now).doc_type }
    {
        self.doc_type
    }

    /// The digest of the item with that digest identifier in that namespace, none where there is no such digest.
    pub fn digest(&self, ns: &str, id: u64) -> Option<&'a [u8]>
        ensures { option_map content result ≡ digest_at ns.now id (object_seen self.now).digests }
    {
        digest_in(self.digests, ns, id)
    }

    /// The digests by their namespaces and digest identifiers, for those who look for many of them.
    pub fn index(&self, alloc: Global) -> Result<DigestIndex<'a>, Memory>
        ensures { IfOk result (λ index. IsIndexOf index (object_seen self.now).digests) }
    {
        DigestIndex::of(alloc, self.digests)
    }

    /// The device key (COSE_Key), unread.
    pub fn device_key(&self) -> View<'a>
        ensures { (part result).bytes ≡ (object_seen self.now).device_key }
    {
        self.device_key
    }

    /// When it was signed, in seconds since 1970.
    pub fn signed(&self) -> i64
        ensures { result ≡ (object_seen self.now).signed }
    {
        self.signed
    }

    /// From when it is valid, in seconds since 1970.
    pub fn from(&self) -> i64
        ensures { result ≡ (object_seen self.now).from }
    {
        self.from
    }

    /// Until when it is valid, in seconds since 1970.
    pub fn until(&self) -> i64
        ensures { result ≡ (object_seen self.now).until }
    {
        self.until
    }
}

//! The fields of a copy.

ghost use Rattle.std.specs.Prelude.{◌≡◌, option_map};
ghost use Rattle.cbor_view.specs.Pairs.{pairs_left};
ghost use Rattle.cbor_view.specs.View.{part};
ghost use Rattle.cbor_maps.specs.NamedMap.{whole_map};
ghost use Rattle.doc_store.specs.CopyFields.{key_in, used_in, issuer_auth_in, spaces_in};

use crate::limits::SIGNATURE_PARTS;
use crate::parts::items_within;
use cbor_maps::NamedMap;
use cbor_view::{Pairs, View};
use mdoc_outside::KeyName;

/// The map of a copy, by its keys.
fn map_of<'a>(stored: &View<'a>) -> NamedMap<'a>
    ensures { whole_map result ≡ part stored.now }
{
    NamedMap::new(
        stored,
        &[
            KeyName::Key,
            KeyName::Used,
            KeyName::IssuerAuth,
            KeyName::NameSpaces,
        ],
    )
}

/// The number of the copy's device key.
pub(crate) fn read_key(stored: &View<'_>) -> Option<u32>
    ensures { result ≡ key_in (part stored.now) }
{
    u32::try_from(map_of(stored).uint(KeyName::Key).ok()?).ok()
}

/// Whether the copy was used.
pub(crate) fn read_used(stored: &View<'_>) -> Option<bool>
    ensures { result ≡ used_in (part stored.now) }
{
    map_of(stored).boolean(KeyName::Used).ok()
}

/// The issuer's signature, an array of its four parts.
pub(crate) fn read_issuer_auth<'a>(stored: &View<'a>) -> Option<View<'a>>
    ensures { option_map part result ≡ issuer_auth_in (part stored.now) }
{
    let auth = map_of(stored).item(KeyName::IssuerAuth).ok()?;
    let _parts = items_within(auth.items()?, SIGNATURE_PARTS, SIGNATURE_PARTS)?;
    Some(auth)
}

/// The namespaces, each with its items.
#[tactic(auto, using(crate::proofs::KeyLaw::field_of_any))]
pub(crate) fn read_spaces<'a>(stored: &View<'a>) -> Option<Pairs<'a>>
    ensures { option_map pairs_left result ≡ spaces_in (part stored.now) }
{
    map_of(stored).item(KeyName::NameSpaces).ok()?.pairs()
}

//! The fields of a security object.

ghost use Rattle.std.specs.Prelude.{◌≡◌, ◌≤◌, length, option_map};
ghost use Rattle.cbor_view.specs.Reading.{Gives};
ghost use Rattle.cbor_view.specs.View.{part};
ghost use Rattle.cbor_maps.specs.NamedMap.{names_of, whole_map};
ghost use Rattle.mso_digests.specs.MsoView.{contents};
ghost use Rattle.mso_digests.specs.Object.{contents_of, digests_distinct, distinct_in, distinct_keys, object_names};

use crate::digests::is_digest_map;
use crate::doubled::has_distinct_digests;
use crate::validity::Validity;
use cbor_maps::{MapFault, NamedMap};
use cbor_view::View;
use mdoc_outside::KeyName;

/// The fields of a security object, each of its kind.
#[derive(Clone, Copy)]
pub(crate) struct Contents<'a> {
    pub(crate) version: &'a str,
    pub(crate) algorithm: &'a str,
    pub(crate) digests: View<'a>,
    pub(crate) device_key: View<'a>,
    pub(crate) doc_type: &'a str,
    pub(crate) validity: Validity<'a>,
}

/// Refuses the first of the names that is there twice in a map, where there is one.
fn distinct_in(names: &[KeyName], map: Option<View<'_>>) -> Result<(), MapFault>
    requires { length names.now ≤ 8 }
    ensures { Gives (λ u. tt) result (distinct_in names.now (option_map part map.entry)) }
{
    match map {
        Some(map) => NamedMap::new(&map, names).distinct(),
        None => Ok(()),
    }
}

/// Refuses a namespace or a digest identifier that is there twice.
fn digests_distinct(map: Option<View<'_>>) -> Result<(), MapFault>
    ensures { Gives (λ u. tt) result (digests_distinct (option_map part map.entry)) }
{
    match map {
        Some(map) => {
            if has_distinct_digests(map) {
                Ok(())
            } else {
                Err(MapFault::Doubled(KeyName::ValueDigests))
            }
        }
        None => Ok(()),
    }
}

/// Refuses the first key that is there twice.
pub(crate) fn distinct_keys(map: &NamedMap<'_>) -> Result<(), MapFault>
    requires { names_of map.now ≡ object_names }
    ensures { Gives (λ u. tt) result (distinct_keys (whole_map map.now)) }
{
    map.distinct()?;
    let digests = map.optional_item(KeyName::ValueDigests)?;
    digests_distinct(digests)?;
    let info = map.optional_item(KeyName::DeviceKeyInfo)?;
    distinct_in(&[KeyName::DeviceKey], info)?;
    let validity = map.optional_item(KeyName::ValidityInfo)?;
    distinct_in(
        &[
            KeyName::Signed,
            KeyName::ValidFrom,
            KeyName::ValidUntil,
            KeyName::ExpectedUpdate,
        ],
        validity,
    )
}

impl<'a> Contents<'a> {
    /// The fields that a map has.
    pub(crate) fn read(map: &NamedMap<'a>) -> Result<Contents<'a>, MapFault>
        ensures { Gives contents result (contents_of (whole_map map.now)) }
    {
        let version = map.text(KeyName::Version)?;
        let algorithm = map.text(KeyName::DigestAlgorithm)?;
        let digests = map.item(KeyName::ValueDigests)?;
        if !is_digest_map(digests) {
            return Err(MapFault::Field(KeyName::ValueDigests));
        }
        let info = map.map(KeyName::DeviceKeyInfo)?;
        let device_key = NamedMap::new(&info, &[KeyName::DeviceKey]).item(KeyName::DeviceKey)?;
        let doc_type = map.text(KeyName::DocType)?;
        let dates = map.map(KeyName::ValidityInfo)?;
        let validity = Validity::read(&dates)?;
        Ok(Contents {
            version,
            algorithm,
            digests,
            device_key,
            doc_type,
            validity,
        })
    }
}

//! The validity of a security object.

ghost use Rattle.std.specs.Prelude.{◌≡◌, option_map};
ghost use Rattle.mdoc_outside.specs.Borrowed.{content};
ghost use Rattle.cbor_view.specs.Reading.{Gives};
ghost use Rattle.cbor_view.specs.View.{part};
ghost use Rattle.cbor_maps.specs.NamedMap.{whole_map};
ghost use Rattle.mso_digests.specs.MsoView.{moments, validity};
ghost use Rattle.mso_digests.specs.Object.{date_text, date_under, moment_under, moments_of, optional_date, update_of, validity_of};

use crate::MsoFault;
use cbor_maps::{MapFault, NamedMap};
use cbor_view::View;
use mdl_table::moment_of;
use mdoc_outside::KeyName;

/// The tag of a date and time in a text (RFC 8949, section 3.4.1).
const DATE: u64 = 0;

/// The dates and times of a security object, as they stand.
#[derive(Clone, Copy)]
pub(crate) struct Validity<'a> {
    pub(crate) signed: &'a str,
    pub(crate) from: &'a str,
    pub(crate) until: &'a str,
    pub(crate) update: Option<&'a str>,
}

/// When an object was signed, and from when and until when it is valid, in seconds since 1970.
#[derive(Clone, Copy)]
pub(crate) struct Moments {
    pub(crate) signed: i64,
    pub(crate) from: i64,
    pub(crate) until: i64,
}

/// A text under tag 0.
fn date_text(value: View<'_>) -> Option<&str>
    ensures { option_map content result ≡ date_text (part value.entry) }
{
    match value.tag() {
        Some((DATE, inner)) => inner.text(),
        _ => None,
    }
}

/// The date and time under a name.
fn date_under<'a>(map: &NamedMap<'a>, name: KeyName) -> Result<&'a str, MapFault>
    ensures { Gives content result (date_under name (whole_map map.now)) }
{
    let value = map.item(name)?;
    match date_text(value) {
        Some(date) => Ok(date),
        None => Err(MapFault::Field(name)),
    }
}

/// The date and time that a value is, where there is one.
fn optional_date(name: KeyName, value: Option<View<'_>>) -> Result<Option<&str>, MapFault>
    ensures { Gives (option_map content) result (optional_date name (option_map part value.entry)) }
{
    let Some(value) = value else {
        return Ok(None);
    };
    match date_text(value) {
        Some(date) => Ok(Some(date)),
        None => Err(MapFault::Field(name)),
    }
}

/// The moment that a text says.
fn moment_under(date: &str) -> Result<i64, MsoFault>
    ensures { Gives (λ m. m) result (moment_under date.now) }
{
    match moment_of(date) {
        Some(moment) => Ok(moment),
        None => Err(MsoFault::Date),
    }
}

impl<'a> Validity<'a> {
    /// The validity that a map says.
    pub(crate) fn read(map: &View<'a>) -> Result<Validity<'a>, MapFault>
        ensures { Gives validity result (validity_of (part map.now)) }
    {
        let map = NamedMap::new(
            map,
            &[
                KeyName::Signed,
                KeyName::ValidFrom,
                KeyName::ValidUntil,
                KeyName::ExpectedUpdate,
            ],
        );
        let signed = date_under(&map, KeyName::Signed)?;
        let from = date_under(&map, KeyName::ValidFrom)?;
        let until = date_under(&map, KeyName::ValidUntil)?;
        let next = map.optional_item(KeyName::ExpectedUpdate)?;
        let update = optional_date(KeyName::ExpectedUpdate, next)?;
        Ok(Validity {
            signed,
            from,
            until,
            update,
        })
    }

    /// Its moments, where each text is a date and time that exists.
    pub(crate) fn moments(&self) -> Result<Moments, MsoFault>
        ensures { Gives moments result (moments_of (validity self.now)) }
    {
        let signed = moment_under(self.signed)?;
        let from = moment_under(self.from)?;
        let until = moment_under(self.until)?;
        if let Some(update) = self.update {
            moment_under(update)?;
        }
        Ok(Moments {
            signed,
            from,
            until,
        })
    }
}

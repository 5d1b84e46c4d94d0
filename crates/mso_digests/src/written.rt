//! Writing of security objects.

ghost use Rattle.std.specs.Prelude.{◌≡◌, ◌<◌, ◌^◌, length, IsUtf8, IfOk, IfSome, OnOk, Ok, Some};
ghost use Rattle.mdoc_outside.specs.declared.key_name.KeyName.TheVariants as keys;
ghost use Rattle.cbor_maps.specs.Writing.{map_head, put};
ghost use Rattle.mdl_table.specs.MomentText.{IsInYears};
ghost use Rattle.mso_digests.specs.DraftView.{fields_of};
ghost use Rattle.mso_digests.specs.Object.{object};
ghost use Rattle.mso_digests.specs.WrittenFacts.{AllHaveSpelling};
ghost use Rattle.mso_digests.specs.Written.{AreInYears, AreOnce, AreTexts, date_bytes, drafted, key_map, object_bytes, object_map, validity_map};

use crate::MsoDraft;
use crate::grouped::write_digests;
use cbor_maps::MapBuild;
use cbor_view::ENCODED;
use cbor_write::Build;
use cose_msgs::write_key;
use key_device::Point;
use mdl_table::text_of;
use mdoc_outside::{KeyName, Memory, Octets};
use std::alloc::Global;

/// The tag of a date and time in a text (RFC 8949, section 3.4.1).
const DATE: u64 = 0;

/// A date and time (tdate; RFC 8949, section 3.4.1).
fn write_date(alloc: Global, moment: i64) -> Result<Octets, Memory>
    requires { IsInYears moment }
    ensures { IfOk result (λ b. date_bytes moment ≡ Some b) }
{
    let Some(text) = text_of(moment) else {
        unreachable!();
    };
    let Ok(text) = str::from_utf8(&text) else {
        unreachable!();
    };
    let mut out = Build::new(alloc);
    out.tag(DATE)?;
    out.text(text)?;
    Ok(out.finish())
}

/// The fields that the map validityInfo has always, of so many in all.
fn append_dates(
    alloc: Global,
    count: u32,
    signed: &[u8],
    from: &[u8],
    until: &[u8],
) -> Result<MapBuild, Memory>
    ensures { IfOk result (λ m. m ≡ put (put (put (map_head count) keys.Signed (Some signed.now)) keys.ValidFrom (Some from.now)) keys.ValidUntil (Some until.now)) }
{
    let map = MapBuild::new(alloc, count)?
        .spelled(KeyName::Signed, signed)?
        .spelled(KeyName::ValidFrom, from)?
        .spelled(KeyName::ValidUntil, until)?;
    Ok(map)
}

/// The map validityInfo.
fn write_validity(
    alloc: Global,
    signed: i64,
    from: i64,
    until: i64,
    update: Option<i64>,
) -> Result<Octets, Memory>
    requires signed { IsInYears signed }
    requires from { IsInYears from }
    requires until { IsInYears until }
    requires update { IfSome update IsInYears }
    ensures { IfOk result (λ b. b ≡ validity_map signed from until update) }
{
    let signed_date = write_date(alloc, signed)?;
    let from_date = write_date(alloc, from)?;
    let until_date = write_date(alloc, until)?;
    match update {
        None => {
            let map = append_dates(
                alloc,
                3,
                signed_date.as_slice(),
                from_date.as_slice(),
                until_date.as_slice(),
            )?;
            Ok(map.finish())
        }
        Some(update) => {
            let map = append_dates(
                alloc,
                4,
                signed_date.as_slice(),
                from_date.as_slice(),
                until_date.as_slice(),
            )?;
            let update_date = write_date(alloc, update)?;
            let map = map.spelled(KeyName::ExpectedUpdate, update_date.as_slice())?;
            Ok(map.finish())
        }
    }
}

/// The map deviceKeyInfo.
#[tactic(auto, unfolding(crate::specs::Written::key_map))]
fn write_key_map(alloc: Global, key: &Point) -> Result<Octets, Memory>
    ensures { IfOk result (λ b. b ≡ key_map key.now) }
{
    let key = write_key(alloc, key)?;
    let map = MapBuild::new(alloc, 1)?.spelled(KeyName::DeviceKey, key.as_slice())?;
    Ok(map.finish())
}

/// The map MobileSecurityObject.
#[tactic(auto, unfolding(crate::specs::Written::object_map))]
fn write_map(alloc: Global, draft: &MsoDraft<'_>) -> Result<Octets, Memory>
    requires texts { AreTexts (fields_of draft.now).digests }
    requires years { AreInYears (fields_of draft.now) }
    ensures written { IfOk result (λ b. b ≡ object_map (fields_of draft.now)) }
    ensures doc_type { OnOk result (length draft.now.doc_type.now < 2 ^ 32) }
    ensures spelling { OnOk result (AllHaveSpelling draft.now.digests.now) }
    ensures few { OnOk result (length draft.now.digests.now < 2 ^ 32) }
{
    let digests = write_digests(alloc, draft.digests)?;
    let key = write_key_map(alloc, &draft.device_key)?;
    let validity = write_validity(alloc, draft.signed, draft.from, draft.until, draft.update)?;
    let map = MapBuild::new(alloc, 6)?
        .text(KeyName::Version, "1.0")?
        .text(KeyName::DigestAlgorithm, "SHA-256")?
        .spelled(KeyName::ValueDigests, digests.as_slice())?
        .spelled(KeyName::DeviceKeyInfo, key.as_slice())?
        .text(KeyName::DocType, draft.doc_type)?
        .spelled(KeyName::ValidityInfo, validity.as_slice())?;
    Ok(map.finish())
}

/// Holds no work: so long a coordinate is.
fn has_length(coordinate: &[u8; 32])
    ensures { length coordinate.now ≡ 32 }
{
    let _length = coordinate.len();
}

/// Holds no work: so a text is.
fn is_text(text: &str)
    ensures { IsUtf8 text.now }
{
    let _length = text.len();
}

/// The payload of an issuer's signature (MobileSecurityObjectBytes; ISO/IEC 18013-5, 9.1.2.4), whose digests are
/// grouped by namespace. A string of 2^32 bytes or more, and a map of as many entries, has no spelling here, and is
/// answered by want of memory.
pub fn write_mso(alloc: Global, draft: &MsoDraft<'_>) -> Result<Octets, Memory>
    requires texts { AreTexts (fields_of draft.now).digests }
    requires once { AreOnce (fields_of draft.now).digests }
    requires years { AreInYears (fields_of draft.now) }
    ensures written { IfOk result (λ b. b ≡ object_bytes (fields_of draft.now)) }
    ensures read { IfOk result (λ b. object b ≡ Ok (drafted (fields_of draft.now))) }
{
    has_length(&draft.device_key.x);
    has_length(&draft.device_key.y);
    is_text(draft.doc_type);
    let map = write_map(alloc, draft)?;
    let mut out = Build::new(alloc);
    out.tag(ENCODED)?;
    out.bytes(map.as_slice())?;
    Ok(out.finish())
}

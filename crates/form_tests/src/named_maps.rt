//! Maps that are read and written: each call once.

use cbor_maps::{
    MapBuild, MapFault, NamedMap, labelled_map_is_spelled, named_map_is_spelled,
    types_are_send_and_sync, written_field_is_read, written_label_is_read,
};
use cbor_view::View;
use mdoc_outside::{KeyName, Memory, Octets};
use std::alloc::Global;
use std::process::Abort;

/// {"version": "1.0", "status": 10, "data": h'0102', "used": true, "errors": {}, "documents": [1],
/// "deviceKey": 24(h'00'), "key": 1, "key": 2, "other": 1, "other": 2}, with the head of "status" and that
/// of its number longer than needed.
const MAP: &[u8] =
    b"\xab\x67version\x631.0\x78\x06status\x18\x0a\x64data\x42\x01\x02\x64used\xf5\x66errors\xa0\x69documents\x81\x01\x69deviceKey\xd8\x18\x41\x00\x63key\x01\x63key\x02\x65other\x01\x65other\x02";

/// The names that are looked for.
const NAMES: [KeyName; 8] = [
    KeyName::Version,
    KeyName::Status,
    KeyName::Data,
    KeyName::Used,
    KeyName::Errors,
    KeyName::Documents,
    KeyName::DeviceKey,
    KeyName::Signed,
];

// Whether simple values are read.
fn are_values_read(map: &NamedMap<'_>) -> bool {
    map.distinct() == Ok(())
        && map.text(KeyName::Version) == Ok("1.0")
        && map.uint(KeyName::Status) == Ok(10)
        && map.boolean(KeyName::Used) == Ok(true)
}

// Whether bytes and encoded items are read.
fn are_bytes_read(map: &NamedMap<'_>) -> Option<bool> {
    let data = map.bytes(KeyName::Data).ok()?;
    let encoded = map.encoded(KeyName::DeviceKey).ok()?;
    Some(data == b"\x01\x02".as_slice() && encoded == b"\x00".as_slice())
}

// Whether items within are read.
fn are_items_read(map: &NamedMap<'_>) -> Option<bool> {
    let errors = map.map(KeyName::Errors).ok()?;
    let first = map.items(KeyName::Documents).ok()?.next()?;
    let status = map.item(KeyName::Status).ok()?;
    Some(errors.raw() == b"\xa0".as_slice() && first.uint() == Some(1) && status.span() == (21, 23))
}

fn reads_all() -> Option<bool> {
    let view = View::read(MAP).ok()?;
    let map = NamedMap::new(&view, &NAMES);
    Some(are_values_read(&map) && are_bytes_read(&map)? && are_items_read(&map)?)
}

#[test]
fn reads_each_kind(rt: HostRuntime) {
    assert!(rt; reads_all() == Some(true));
    types_are_send_and_sync();
}

// Whether names that are absent, or of another kind, are told.
fn are_faults_told(map: &NamedMap<'_>) -> bool {
    map.uint(KeyName::Version) == Err(MapFault::Field(KeyName::Version))
        && map.text(KeyName::Signed) == Err(MapFault::Field(KeyName::Signed))
        && map.optional_uint(KeyName::Data) == Err(MapFault::Field(KeyName::Data))
}

// Whether what may be absent is told.
fn are_absent_told(map: &NamedMap<'_>) -> bool {
    map.optional_uint(KeyName::Signed) == Ok(None)
        && map.optional_uint(KeyName::Status) == Ok(Some(10))
        && matches!(map.optional_bytes(KeyName::Data), Ok(Some(b"\x01\x02")))
        && matches!(map.optional_item(KeyName::Signed), Ok(None))
}

fn tells_faults() -> Option<bool> {
    let view = View::read(MAP).ok()?;
    let map = NamedMap::new(&view, &NAMES);
    // A name that isn't in the table is looked for in the map.
    let is_doubled = map.uint(KeyName::Key) == Err(MapFault::Doubled(KeyName::Key));
    Some(are_faults_told(&map) && are_absent_told(&map) && is_doubled)
}

fn tells_doubled() -> Option<bool> {
    let view = View::read(MAP).ok()?;
    let doubled = NamedMap::new(&view, &[KeyName::Signed, KeyName::Key]);
    Some(doubled.distinct() == Err(MapFault::Doubled(KeyName::Key)))
}

fn tells_no_map() -> Option<bool> {
    let item = View::read(b"\x01").ok()?;
    let none = NamedMap::new(&item, &[KeyName::Key]);
    let is_absent = none.uint(KeyName::Key) == Err(MapFault::Field(KeyName::Key));
    Some(none.distinct() == Ok(()) && is_absent)
}

#[test]
fn tells_the_fault_of_each_name(rt: HostRuntime) {
    assert!(rt; tells_faults() == Some(true));
    assert!(rt; tells_doubled() == Some(true));
    assert!(rt; tells_no_map() == Some(true));
}

// A map of nine with the first of its entries.
fn begun(alloc: Global) -> Result<MapBuild, Memory> {
    MapBuild::new(alloc, 9)?
        .text(KeyName::Version, "1.0")?
        .uint(KeyName::Status, 10)?
        .bytes(KeyName::Data, b"\x01\x02")?
        .boolean(KeyName::Used, true)
}

// The map with items as they are spelled.
fn with_items(map: MapBuild, item: &View<'_>) -> Result<MapBuild, Memory> {
    map.item(KeyName::Auth, item)?
        .spelled(KeyName::Errors, b"\xa0")?
        .encoded(KeyName::DeviceKey, b"\x00")
}

// The map with what may be absent, of which two are there.
fn with_optional(map: MapBuild) -> Result<MapBuild, Memory> {
    map.optional_uint(KeyName::Key, Some(1))?
        .optional_uint(KeyName::Signed, None)?
        .optional_bytes(KeyName::Random, None)?
        .optional_spelled(KeyName::Copies, None)?
        .optional_spelled(KeyName::Documents, Some(b"\x80"))
}

fn written(alloc: Global) -> Option<Octets> {
    let item = View::read(b"\x18\x05").ok()?;
    let map = with_items(begun(alloc).ok()?, &item).ok()?;
    Some(with_optional(map).ok()?.finish())
}

fn written_labels(alloc: Global) -> Result<Octets, Memory> {
    let map = MapBuild::new(alloc, 2)?
        .labelled_uint(1, 2)?
        .labelled_bytes(-2, b"\x05")?;
    Ok(map.finish())
}

/// The bytes of the map that is written.
const WRITTEN: &[u8] =
    b"\xa9\x67version\x631.0\x66status\x0a\x64data\x42\x01\x02\x64used\xf5\x64auth\x18\x05\x66errors\xa0\x69deviceKey\xd8\x18\x41\x00\x63key\x01\x69documents\x80";

fn is_written(alloc: Global) -> Option<bool> {
    Some(written(alloc)?.as_slice() == WRITTEN)
}

fn are_labels_written(alloc: Global) -> Option<bool> {
    Some(written_labels(alloc).ok()?.as_slice() == b"\xa2\x01\x02\x21\x41\x05".as_slice())
}

#[test]
fn writes_each_kind(rt: HostRuntime) {
    assert!(rt; is_written(rt.alloc()) == Some(true));
    assert!(rt; are_labels_written(rt.alloc()) == Some(true));
    named_map_is_spelled();
    written_field_is_read();
    labelled_map_is_spelled();
    written_label_is_read();
}

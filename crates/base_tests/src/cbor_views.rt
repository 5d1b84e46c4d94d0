//! Views of CBOR by their bytes, whole ones and those of bytes that break off.

use cbor_view::{CborFault, CborKind, Doubled, Key, PartialView, View, types_are_send_and_sync};
use std::test::*;

fn is_item(bytes: &[u8]) -> bool {
    View::read(bytes).is_ok()
}

/// Whether bytes are no item, with that first fault.
fn is_refused(bytes: &[u8], kind: CborKind, at: usize) -> bool {
    View::read(bytes).err() == Some(CborFault { kind, at })
}

/// What the simple value of that number, in one byte, is read as: a boolean, and whether null.
fn simple_value(number: u8) -> Option<(Option<bool>, bool)> {
    let bytes = [0xe0 | number];
    let view = View::read(&bytes).ok()?;
    Some((view.boolean(), view.is_null()))
}

#[test]
fn reads_every_simple_value(rt: HostRuntime) {
    for number in 0..32u8 {
        assert!(rt;
            is_refused(&[0xf8, number], CborKind::Reserved, 0),
            "{number}"
        );
    }
    for number in 32..=255u8 {
        assert!(rt; is_item(&[0xf8, number]), "{number}");
    }
    for number in 0..24u8 {
        let boolean = match number {
            20 => Some(false),
            21 => Some(true),
            _ => None,
        };
        assert!(rt;
            simple_value(number) == Some((boolean, number == 22)),
            "{number}"
        );
    }
}

/// 30 levels of arrays, maps and tags in turn.
const THIRTY: &[u8; 40] =
    b"\x81\xa1\x00\xc1\x81\xa1\x00\xc1\x81\xa1\x00\xc1\x81\xa1\x00\xc1\x81\xa1\x00\xc1\
      \x81\xa1\x00\xc1\x81\xa1\x00\xc1\x81\xa1\x00\xc1\x81\xa1\x00\xc1\x81\xa1\x00\xc1";

/// Where an item inside these thirty levels is too deep.
fn too_deep_at(item: &[u8; 4]) -> Option<usize> {
    let mut mixed = [0u8; 44];
    mixed[..40].copy_from_slice(THIRTY);
    mixed[40..].copy_from_slice(item);
    match View::read(&mixed) {
        Err(
            CborFault {
                kind: CborKind::Deep,
                at,
            },
        ) => Some(at),
        _ => None,
    }
}

#[test]
fn nests_to_thirty_two_levels(rt: HostRuntime) {
    let mut arrays = [0x81u8; 34];
    arrays[33] = 0;
    assert!(rt; is_refused(&arrays, CborKind::Deep, 32));
    assert!(rt; is_item(&arrays[1..]));
    assert!(rt; too_deep_at(b"\x81\xa1\x00\x00") == None);
    assert!(rt; too_deep_at(b"\x81\xc1\x81\x00") == Some(42));
    assert!(rt; too_deep_at(b"\x81\x81\xc1\x00") == Some(42));
}

/// {"status": 0, "status": 10}
const TWICE: &[u8] = b"\xa2\x66status\x00\x66status\x0a";

/// {1: 2, -1: "x", "a": [3, 4], 1.0: 0}, where the key 1 has a longer head.
const MIXED: &[u8] = b"\xa4\x18\x01\x02\x20\x61x\x61a\x82\x03\x04\xf9\x3c\x00\x00";

/// A map, a key, and the span of the value.
const ENTRIES: [(&[u8], Key<'static>, Result<Option<(usize, usize)>, Doubled>); 8] = [
    (TWICE, Key::Text("status"), Err(Doubled)),
    (TWICE, Key::Text("statu"), Ok(None)),
    (MIXED, Key::Int(1), Ok(Some((3, 4)))),
    (MIXED, Key::Int(-1), Ok(Some((5, 7)))),
    (MIXED, Key::Text("a"), Ok(Some((9, 12)))),
    (MIXED, Key::Int(2), Ok(None)),
    (MIXED, Key::Text("x"), Ok(None)),
    (b"\x81\x01", Key::Int(1), Ok(None)),
];

/// The span of the value under a key.
fn span_under(bytes: &[u8], key: Key<'_>) -> Result<Option<(usize, usize)>, Doubled> {
    let Ok(map) = View::read(bytes) else {
        return Ok(None);
    };
    match map.entry(key) {
        Ok(Some(value)) => Ok(Some(value.span())),
        Ok(None) => Ok(None),
        Err(Doubled) => Err(Doubled),
    }
}

#[test]
fn finds_entries(rt: HostRuntime) {
    for (bytes, key, wanted) in &ENTRIES {
        assert!(rt; span_under(bytes, *key) == *wanted, "{key:?} of {bytes:?}");
    }
}

/// The span of an item, before its bytes.
type Span = (usize, usize);

/// An array, a number from 0, and the span of the item of that number, if there is one.
const ITEMS: [(&[u8], usize, Option<Span>); 6] = [
    (b"\x82\x01\x82\x02\x03", 0, Some((1, 2))),
    (b"\x82\x01\x82\x02\x03", 1, Some((2, 5))),
    (b"\x82\x01\x82\x02\x03", 2, None),
    (b"\x98\x02\x18\x18\x60", 0, Some((2, 4))),
    (b"\x98\x02\x18\x18\x60", 1, Some((4, 5))),
    (b"\x98\x02\x18\x18\x60", 2, None),
];

/// A map, a number from 0, and the spans of the key and the value of that number, if there are any.
const PAIRS: [(&[u8], usize, Option<(Span, Span)>); 3] = [
    (b"\xa2\x61a\x01\x61b\x82\x02\x03", 0, Some(((1, 3), (3, 4)))),
    (b"\xa2\x61a\x01\x61b\x82\x02\x03", 1, Some(((4, 6), (6, 9)))),
    (b"\xa2\x61a\x01\x61b\x82\x02\x03", 2, None),
];

/// The item of an array with that number.
fn item_of(bytes: &[u8], number: usize) -> Option<View<'_>> {
    View::read(bytes).ok()?.items()?.nth(number)
}

fn span_of_item(bytes: &[u8], number: usize) -> Option<Span> {
    Some(item_of(bytes, number)?.span())
}

/// Whether the bytes of that item are those of its span.
fn raw_is_the_span(bytes: &[u8], number: usize) -> bool {
    match item_of(bytes, number) {
        Some(item) => bytes.get(item.span().0..item.span().1) == Some(item.raw()),
        None => true,
    }
}

fn spans_of_pair(bytes: &[u8], number: usize) -> Option<(Span, Span)> {
    let (key, value) = View::read(bytes).ok()?.pairs()?.nth(number)?;
    Some((key.span(), value.span()))
}

#[test]
fn goes_over_parts(rt: HostRuntime) {
    for (bytes, number, span) in &ITEMS {
        assert!(rt;
            span_of_item(bytes, *number) == *span,
            "{number} of {bytes:?}"
        );
        assert!(rt; raw_is_the_span(bytes, *number), "{number} of {bytes:?}");
    }
    for (bytes, number, spans) in &PAIRS {
        assert!(rt;
            spans_of_pair(bytes, *number) == *spans,
            "{number} of {bytes:?}"
        );
    }
}

/// Tag 24 over the bytes of {1: 2}.
const EMBEDDED: &[u8] = b"\xd8\x18\x43\xa1\x01\x02";

/// A tag's number, and the span and the depth of what is under it.
fn under_tag(bytes: &[u8]) -> Option<(u64, Span, u32)> {
    let (number, inner) = View::read(bytes).ok()?.tag()?;
    Some((number, inner.span(), inner.depth()))
}

fn bytes_under_tag(bytes: &[u8]) -> Option<&[u8]> {
    View::read(bytes).ok()?.tag()?.1.bytes()
}

fn depth_of(bytes: &[u8]) -> Option<u32> {
    Some(View::read(bytes).ok()?.depth())
}

#[test]
fn goes_under_tags(rt: HostRuntime) {
    assert!(rt; under_tag(EMBEDDED) == Some((24, (2, 6), 0)));
    assert!(rt; bytes_under_tag(EMBEDDED) == Some(b"\xa1\x01\x02".as_slice()));
    assert!(rt; depth_of(EMBEDDED) == Some(1));
    types_are_send_and_sync();
}

/// {"a": 1, "b": [2], "c": "xyz"}, cut in the third value.
const CUT_MAP: &[u8] = b"\xa3\x61a\x01\x61b\x81\x02\x61c\x63xy";

/// [1, 24([2, a break, 3
const BROKEN: &[u8] = b"\x83\x01\xd8\x18\x82\x02\xff\x03";

/// {1: [2, 3]} and a byte.
const WHOLE: &[u8] = b"\xa1\x01\x82\x02\x03\x00";

/// A map whose second key is broken.
const BROKEN_KEY: &[u8] = b"\xa2\x01\x02\x1c\x03";

const TRUNCATED: CborFault = CborFault {
    kind: CborKind::Truncated,
    at: 10,
};

const RESERVED: CborFault = CborFault {
    kind: CborKind::Reserved,
    at: 6,
};

/// Where an item that may break off begins, and its first fault.
type Start = (usize, Option<CborFault>);

fn start_of(item: Option<PartialView<'_>>) -> Option<Start> {
    let item = item?;
    Some((item.at(), item.fault()))
}

/// The span of an item, where it is whole.
fn whole_span(item: Option<PartialView<'_>>) -> Option<Span> {
    Some(item?.view()?.span())
}

/// The number of an item, where it is whole.
fn whole_number(item: Option<PartialView<'_>>) -> Option<u64> {
    item?.view()?.uint()
}

fn count_of(item: Option<PartialView<'_>>) -> Option<u64> {
    item?.count()
}

fn item_in<'a>(array: &PartialView<'a>, number: usize) -> Option<PartialView<'a>> {
    array.items()?.nth(number)
}

fn key_in<'a>(map: &PartialView<'a>, number: usize) -> Option<PartialView<'a>> {
    Some(map.pairs()?.nth(number)?.0)
}

fn value_in<'a>(map: &PartialView<'a>, number: usize) -> Option<PartialView<'a>> {
    map.pairs()?.nth(number)?.1
}

#[test]
fn views_a_cut_map(rt: HostRuntime) {
    let map = PartialView::read(CUT_MAP);
    assert!(rt; start_of(Some(map)) == Some((0, Some(TRUNCATED))));
    assert!(rt; is_refused(CUT_MAP, CborKind::Truncated, 10));
    assert!(rt; map.view().is_none() && map.items().is_none());
    assert!(rt; map.count().is_none() && map.tag().is_none());
    for (number, key, value) in [
        (0, Some((1, None)), Some((3, None))),
        (1, Some((4, None)), Some((6, None))),
        (2, Some((8, None)), Some((10, Some(TRUNCATED)))),
        (3, None, None),
    ] {
        assert!(rt; start_of(key_in(&map, number)) == key, "{number}");
        assert!(rt; start_of(value_in(&map, number)) == value, "{number}");
    }
}

#[test]
fn views_a_broken_item(rt: HostRuntime) -> Result<(), Fail> {
    let array = PartialView::read(BROKEN);
    assert!(rt; start_of(Some(array)) == Some((0, Some(RESERVED))));
    assert!(rt; array.count() == Some(3) && array.pairs().is_none());
    assert!(rt; start_of(item_in(&array, 0)) == Some((1, None)));
    assert!(rt; whole_number(item_in(&array, 0)) == Some(1));
    assert!(rt; start_of(item_in(&array, 1)) == Some((2, Some(RESERVED))));
    assert!(rt; start_of(item_in(&array, 2)) == None);
    Ok(())
}

#[test]
fn views_what_a_broken_item_holds(rt: HostRuntime) -> Result<(), Fail> {
    let array = PartialView::read(BROKEN);
    let tagged = item_in(&array, 1).ok_or("the second item")?;
    let (number, inner) = tagged.tag().ok_or("a tag")?;
    assert!(rt; number == 24);
    assert!(rt; start_of(Some(inner)) == Some((4, Some(RESERVED))));
    let broken = item_in(&inner, 1).ok_or("the break")?;
    assert!(rt; start_of(Some(broken)) == Some((6, Some(RESERVED))));
    assert!(rt; broken.items().is_none());
    let map = PartialView::read(BROKEN_KEY);
    assert!(rt; key_in(&map, 1).is_some_and(|key| key.at() == 3));
    assert!(rt; value_in(&map, 1).is_none());
    Ok(())
}

#[test]
fn views_a_whole_item(rt: HostRuntime) -> Result<(), Fail> {
    let map = PartialView::read(WHOLE);
    assert!(rt; start_of(Some(map)) == Some((0, None)));
    assert!(rt; whole_span(Some(map)) == Some((0, 5)));
    assert!(rt; whole_number(key_in(&map, 0)) == Some(1));
    assert!(rt; whole_span(value_in(&map, 0)) == Some((2, 5)));
    assert!(rt; count_of(key_in(&map, 0)) == None);
    assert!(rt; count_of(value_in(&map, 0)) == Some(2));
    assert!(rt; key_in(&map, 1).is_none());
    let array = value_in(&map, 0).ok_or("the value")?;
    assert!(rt; start_of(item_in(&array, 0)) == Some((3, None)));
    assert!(rt; start_of(item_in(&array, 1)) == Some((4, None)));
    assert!(rt; item_in(&array, 2).is_none());
    Ok(())
}

//! Stores by their bytes.

use doc_store::StoreCheck::Limit;
use doc_store::{Document, EMPTY_STORE, Fault, Store, StoreCheck, StoreFault, StoredCopy};
use mdoc_outside::LimitName;
use std::alloc::Global;
use std::process::Abort;

/// A store with the document type `d`, one copy, the namespace `n` and one item.
const ONE_ITEM: &[u8] = b"\xa2\x67version\x01\x69documents\x81\
\xa3\x67docType\x61d\x64auth\x00\x66copies\x81\
\xa4\x63key\x00\x64used\xf4\x6aissuerAuth\x84\x40\xa0\xf6\x40\x6anameSpaces\xa1\x61n\x81\
\xd8\x18\x58\x37\xa4\x68digestID\x00\x66random\x41\x01\
\x71elementIdentifier\x61a\x6celementValue\x61x";

/// Its item: number 0, salt 01, name `a`, value "x".
const ITEM: &[u8] = b"\xd8\x18\x58\x37\xa4\x68digestID\x00\x66random\x41\x01\
\x71elementIdentifier\x61a\x6celementValue\x61x";

/// An item of the name `b`.
const OTHER_ITEM: &[u8] = b"\xd8\x18\x58\x37\xa4\x68digestID\x01\x66random\x41\x02\
\x71elementIdentifier\x61b\x6celementValue\x61y";

/// A copy without its namespaces.
const COPY_HEAD: &[u8] = b"\xa4\x63key\x00\x64used\xf4\x6aissuerAuth\x84\x40\xa0\xf6\x40\
\x6anameSpaces";

/// A store with one document, up to its copies.
const DOCUMENT: &[u8] = b"\xa2\x67version\x01\x69documents\x81\
\xa3\x67docType\x61d\x64auth\x00\x66copies";

/// A document up to its type of three bytes, and from there on.
const DOCUMENT_HEAD: &[u8] = b"\xa3\x67docType\x63";

const DOCUMENT_END: &[u8] = b"\x64auth\x01\x66copies\x81\
\xa4\x63key\x00\x64used\xf4\x6aissuerAuth\x84\x40\xa0\xf6\x40\x6anameSpaces\xa0";

/// Bytes one after another.
fn joined(alloc: Global, parts: &[&[u8]]) -> Option<Vec<u8>> {
    let mut all = Vec::new(alloc);
    for part in parts {
        all.extend_from_slice(part).ok()?;
    }
    Some(all)
}

/// Adds three digits of a number.
fn add_number(alloc: Global, all: &mut Vec<u8>, number: u16) -> Option<()> {
    let digits = format!(in alloc; "{number:03}").ok()?;
    all.extend_from_slice(digits.as_bytes()).ok()
}

/// A front, and then parts that have three digits of their number within.
fn numbered(
    alloc: Global,
    front: &[u8],
    before: &[u8],
    after: &[u8],
    count: u16,
) -> Option<Vec<u8>> {
    let mut all = front.to_vec(alloc).ok()?;
    for number in 0..count {
        all.extend_from_slice(before).ok()?;
        add_number(alloc, &mut all, number)?;
        all.extend_from_slice(after).ok()?;
    }
    Some(all)
}

/// The first fault of a file; none where it is read.
fn fault_of(alloc: Global, bytes: &[u8]) -> Option<(StoreCheck, usize)> {
    match Store::read(alloc, bytes) {
        Err(StoreFault::Form(Fault { check, at })) => Some((check, at)),
        _ => None,
    }
}

/// The copy to show of the document of type `d`.
fn copy_to_show<'a>(store: &Store<'a>) -> Option<StoredCopy<'a>> {
    let document = store.find("d")?;
    Some(document.copy(document.chosen()))
}

/// The item of that name in that copy.
fn item_of<'a>(store: &Store<'a>, ns: &str, name: &str) -> Option<&'a [u8]> {
    copy_to_show(store)?.item(ns, name)
}

/// What a document says but for its copies: its type, whether its keys make codes, the number of
/// copies, and the place of the one to show.
fn document_says<'a>(document: &Document<'a>) -> (&'a str, bool, usize, usize) {
    (
        document.doc_type(),
        document.uses_mac(),
        document.copies(),
        document.chosen(),
    )
}

/// What a copy says but for its items: the number of its key, whether it is used, its signature.
fn copy_says<'a>(copy: &StoredCopy<'a>) -> (u32, bool, &'a [u8]) {
    (copy.key(), copy.used(), copy.issuer_auth().raw())
}

/// Whether the store with one item is read as it is.
fn is_one_item(alloc: Global) -> Option<bool> {
    let store = Store::read(alloc, ONE_ITEM).ok()?;
    let are_documents = store.documents() == 1 && store.find("e").is_none();
    let is_document = document_says(&store.find("d")?) == ("d", false, 1, 0);
    let is_copy = copy_says(&copy_to_show(&store)?) == (0, false, b"\x84\x40\xa0\xf6\x40");
    Some(are_documents && is_document && is_copy && has_one_item(&store))
}

fn has_one_item(store: &Store<'_>) -> bool {
    item_of(store, "n", "a") == Some(ITEM)
        && item_of(store, "n", "b") == None
        && item_of(store, "m", "a") == None
}

#[test]
fn reads_one_item(rt: HostRuntime) {
    assert!(rt; is_one_item(rt.alloc()) == Some(true));
}

/// The items of a copy one after another, each after its namespace and a colon.
fn shown(alloc: Global, copy: StoredCopy<'_>) -> Option<Vec<u8>> {
    let mut all = Vec::new(alloc);
    for (ns, raw) in copy.items() {
        all.extend_from_slice(ns.as_bytes()).ok()?;
        all.push(b':').ok()?;
        all.extend_from_slice(raw).ok()?;
    }
    Some(all)
}

/// An item of the name `a` with another salt.
const SALTED_ITEM: &[u8] = b"\xd8\x18\x58\x37\xa4\x68digestID\x00\x66random\x41\x05\
\x71elementIdentifier\x61a\x6celementValue\x61x";

/// A store with items of one name in two namespaces.
fn two_namespaces(alloc: Global) -> Option<Vec<u8>> {
    let front = joined(alloc, &[DOCUMENT, b"\x81", COPY_HEAD, b"\xa2\x61m\x82"])?;
    joined(
        alloc,
        &[&front, OTHER_ITEM, SALTED_ITEM, b"\x61n\x81", ITEM],
    )
}

fn has_two_namespaces(store: &Store<'_>) -> bool {
    item_of(store, "n", "a") == Some(ITEM)
        && item_of(store, "m", "b") == Some(OTHER_ITEM)
        && item_of(store, "m", "a") == Some(SALTED_ITEM)
        && item_of(store, "n", "b") == None
}

/// Whether the store with two namespaces is read as it is.
fn are_two_told_apart(alloc: Global) -> Option<bool> {
    let bytes = two_namespaces(alloc)?;
    let store = Store::read(alloc, &bytes).ok()?;
    Some(has_two_namespaces(&store))
}

#[test]
fn tells_namespaces_apart(rt: HostRuntime) {
    assert!(rt; are_two_told_apart(rt.alloc()) == Some(true));
}

/// Whether the items of the store with two namespaces are gone over in their order.
fn are_items_in_order(alloc: Global) -> Option<bool> {
    let bytes = two_namespaces(alloc)?;
    let store = Store::read(alloc, &bytes).ok()?;
    let found = shown(alloc, copy_to_show(&store)?)?;
    let wanted = joined(alloc, &[b"m:", OTHER_ITEM, b"m:", SALTED_ITEM, b"n:", ITEM])?;
    Some(found == wanted)
}

#[test]
fn goes_over_the_items_of_a_copy(rt: HostRuntime) {
    assert!(rt; are_items_in_order(rt.alloc()) == Some(true));
}

/// The type of the document at a place, and whether its keys make codes.
fn type_at<'a>(store: &Store<'a>, place: usize) -> Option<(&'a str, bool)> {
    if place >= store.documents() {
        return None;
    }
    let document = store.document(place);
    Some((document.doc_type(), document.uses_mac()))
}

/// Whether documents are in the order of the file.
fn are_documents_in_order(alloc: Global) -> Option<bool> {
    let front = b"\xa2\x67version\x01\x69documents\x83";
    let bytes = numbered(alloc, front, DOCUMENT_HEAD, DOCUMENT_END, 3)?;
    let store = Store::read(alloc, &bytes).ok()?;
    Some(
        type_at(&store, 0) == Some(("000", true))
            && type_at(&store, 1) == Some(("001", true))
            && type_at(&store, 2) == Some(("002", true))
            && type_at(&store, 3) == None,
    )
}

fn has_no_document(alloc: Global) -> Option<bool> {
    let none = Store::read(alloc, &EMPTY_STORE).ok()?;
    Some(type_at(&none, 0) == None)
}

#[test]
fn keeps_the_order_of_documents(rt: HostRuntime) {
    assert!(rt; are_documents_in_order(rt.alloc()) == Some(true));
    assert!(rt; has_no_document(rt.alloc()) == Some(true));
}

/// An item up to its name of three bytes, and from there on.
const NUMBERED_ITEM: &[u8] =
    b"\xd8\x18\x58\x39\xa4\x68digestID\x00\x66random\x41\x01\x71elementIdentifier\x63";

const NUMBERED_END: &[u8] = b"\x6celementValue\x61x";

/// So many items in one copy, after the head of their namespace, and what stands after them.
fn items(alloc: Global, head: &[u8], count: u16, rest: &[u8]) -> Option<Vec<u8>> {
    let front = joined(alloc, &[DOCUMENT, b"\x81", COPY_HEAD, head])?;
    let mut listed = numbered(alloc, &front, NUMBERED_ITEM, NUMBERED_END, count)?;
    listed.extend_from_slice(rest).ok()?;
    Some(listed)
}

/// A second namespace with one item.
const OTHER_NAMESPACE: &[u8] = b"\x61n\x81\xd8\x18\x58\x37\xa4\x68digestID\x00\x66random\x41\x01\
\x71elementIdentifier\x61a\x6celementValue\x61x";

/// Items in all, 512 and 513, in one namespace and in two: the head of the first namespace, how many
/// items it has, what stands after it, and where the first item too many is.
const MANY_ITEMS: [(&[u8], u16, &[u8], Option<usize>); 4] = [
    (b"\xa1\x61m\x99\x02\x00", 512, b"", None),
    (b"\xa1\x61m\x99\x02\x01", 513, b"", Some(31_323)),
    (b"\xa2\x61m\x99\x01\xff", 511, OTHER_NAMESPACE, None),
    (b"\xa2\x61m\x99\x02\x00", 512, OTHER_NAMESPACE, Some(31_326)),
];

/// Whether so many items have an item too many at that place, if any.
fn have_limit(
    alloc: Global,
    head: &[u8],
    count: u16,
    rest: &[u8],
    beyond: Option<usize>,
) -> Option<bool> {
    let bytes = items(alloc, head, count, rest)?;
    let wanted = match beyond {
        Some(at) => Some((Limit(LimitName::Items, 513), at)),
        None => None,
    };
    Some(fault_of(alloc, &bytes) == wanted)
}

#[test]
fn keeps_the_limit_of_items(rt: HostRuntime) {
    for (head, count, rest, beyond) in &MANY_ITEMS {
        assert!(rt;
            have_limit(rt.alloc(), head, *count, rest, *beyond) == Some(true),
            "{count} items"
        );
    }
}

/// The store with one item up to the item's map, from there up to the item's value, and a value of so many letters, with the
/// lengths of the item and of the value.
fn with_value(alloc: Global, item: &[u8], value: &[u8], count: usize) -> Option<Vec<u8>> {
    let front = ONE_ITEM.get(..91)?;
    let within = ONE_ITEM.get(93..146)?;
    let letters = vec![in alloc; b'q'; count].ok()?;
    joined(alloc, &[front, item, within, value, &letters])
}

/// The first fault of such a store; nothing where it has none.
fn fault_with(
    alloc: Global,
    item: &[u8],
    value: &[u8],
    count: usize,
) -> Option<Option<(StoreCheck, usize)>> {
    let bytes = with_value(alloc, item, value, count)?;
    Some(fault_of(alloc, &bytes))
}

/// Bytes of a value, 262,144 and 262,145.
#[test]
fn keeps_the_limits_of_bytes(rt: HostRuntime) {
    let longest = fault_with(
        rt.alloc(),
        b"\x5a\x00\x04\x00\x35",
        b"\x7a\x00\x03\xff\xfb",
        262_139,
    );
    assert!(rt; longest == Some(None));
    let beyond = fault_with(
        rt.alloc(),
        b"\x5a\x00\x04\x00\x36",
        b"\x7a\x00\x03\xff\xfc",
        262_140,
    );
    assert!(rt; beyond == Some(Some((Limit(LimitName::Value, 262_145), 89))));
}

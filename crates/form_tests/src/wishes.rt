//! The wishes of a request, in the order of its bytes.

use cbor_view::View;
use consent::Wish;
use doc_request::{Request, Wishes};
use std::alloc::Global;
use std::test::*;

/// A request in hexadecimal digits that `tests/vectors/requests` writes.
const REQUEST: &str =
    "a26776657273696f6e63312e306b646f63526571756573747382a16c6974656d7352657175657374d8185826a267646f635479706561646a6e616d65537061636573a2616ea26162f46161f5616da16161f4a16c6974656d7352657175657374d818581ca267646f635479706561656a6e616d65537061636573a1616da160f5";

/// Its wishes: the place of the document, its type, the namespace, the name and whether it is to be retained.
const WISHES: [(usize, &str, &str, &str, bool); 4] = [
    (0, "d", "n", "b", false),
    (0, "d", "n", "a", true),
    (0, "d", "m", "a", false),
    (1, "e", "m", "", true),
];

fn is_wish(place: usize, wish: &Wish<'_>, wanted: &(usize, &str, &str, &str, bool)) -> bool {
    let (own_place, doc_type, ns, name, retain) = *wanted;
    let is_type = wish.doc_type == doc_type;
    let is_ns = wish.ns == ns;
    let is_name = wish.name == name;
    place == own_place && is_type && is_ns && is_name && wish.retain == retain
}

/// Whether these are the wishes in their order, and there are no others.
fn are_wishes(mut wishes: Wishes<'_>) -> bool {
    for wanted in &WISHES {
        match wishes.next() {
            Some((place, wish)) if is_wish(place, &wish, wanted) => {}
            _ => return false,
        }
    }
    wishes.next().is_none()
}

fn has_wishes(alloc: Global) -> Option<bool> {
    let bytes = hex::decode(alloc, REQUEST.as_bytes()).ok()?;
    let view = View::read(&bytes).ok()?;
    Some(are_wishes(Request::read(view).ok()?.wishes()))
}

#[test]
fn wishes_in_order(rt: HostRuntime) {
    assert!(rt; has_wishes(rt.alloc()) == Some(true));
}

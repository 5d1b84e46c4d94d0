//! Items of CBOR and elements of DER.

use cbor_view::View;
use der_view::Der;
use std::alloc::Global;

/// What is said of bytes that are read.
fn of_read(alloc: Global) -> Option<String> {
    String::from_str(alloc, "Ok").ok()
}

/// The first fault of an element of DER, and its place.
pub(crate) fn element_of(alloc: Global, bytes: &[u8]) -> Option<String> {
    match Der::read(bytes) {
        Ok(_) => of_read(alloc),
        Err(fault) => {
            let (kind, at) = (fault.kind, fault.at);
            format!(in alloc; "{kind:?} {at}").ok()
        }
    }
}

/// What is said of an item of CBOR by a word, or its first fault and its place.
pub(crate) fn item_of(alloc: Global, word: &str, bytes: &[u8]) -> Option<String> {
    match View::read(bytes) {
        Ok(view) if view.raw() == bytes => of_view(alloc, word, &view),
        Ok(_) => String::from_str(alloc, "a part of the bytes").ok(),
        Err(fault) => {
            let (kind, at) = (fault.kind, fault.at);
            format!(in alloc; "{kind:?} {at}").ok()
        }
    }
}

fn of_view(alloc: Global, word: &str, view: &View<'_>) -> Option<String> {
    match word {
        "cbor" => of_read(alloc),
        "number" => numbers_of(alloc, view),
        "text" => String::from_str(alloc, view.text()?).ok(),
        "kind" => readers_of(alloc, view),
        _ => None,
    }
}

/// The number that is not negative, and that of either sign.
fn numbers_of(alloc: Global, view: &View<'_>) -> Option<String> {
    let int = view.int()?;
    match view.uint() {
        Some(uint) => format!(in alloc; "{uint} {int}").ok(),
        None => format!(in alloc; "- {int}").ok(),
    }
}

/// The readers that tell of an item.
fn readers_of(alloc: Global, view: &View<'_>) -> Option<String> {
    let readers = [
        (" uint", view.uint().is_some()),
        (" int", view.int().is_some()),
        (" bytes", view.bytes().is_some()),
        (" text", view.text().is_some()),
        (" boolean", view.boolean().is_some()),
        (" null", view.is_null()),
        (" tag", view.tag().is_some()),
        (" items", view.items().is_some()),
        (" pairs", view.pairs().is_some()),
    ];
    let mut told = String::new(alloc);
    for (name, tells) in readers {
        if tells {
            told.push_str(name).ok()?;
        }
    }
    match told.as_str().strip_prefix(' ') {
        Some(names) => String::from_str(alloc, names).ok(),
        None => String::from_str(alloc, "-").ok(),
    }
}

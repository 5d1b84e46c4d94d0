//! Keys that are there twice.

ghost use Rattle.std.specs.Prelude.{◌≡◌, None, Some};
ghost use Rattle.cbor_view.specs.Label.{is_words};
ghost use Rattle.cbor_view.specs.Pairs.{pairs_left};
ghost use Rattle.cbor_view.specs.Parts.{text_in, uint_in};
ghost use Rattle.cbor_view.specs.View.{part};
ghost use Rattle.mso_digests.specs.Digests.{are_texts_distinct, are_uints_distinct, has_distinct_digests, has_distinct_uints, have_distinct_uints, has_text, has_uint, is_uint};
ghost use Rattle.mso_digests.specs.Nested.{are_ascending, is_after};

use cbor_view::{Pairs, View};

/// Whether no namespace is there twice, and no digest identifier in one of them.
pub(crate) fn has_distinct_digests(map: View<'_>) -> bool
    ensures { result ≡ has_distinct_digests (part map.entry) }
{
    match map.pairs() {
        Some(pairs) => are_texts_distinct(pairs) && have_distinct_uints(pairs),
        None => true,
    }
}

/// Whether no text is there twice. Each is looked for among the keys after it.
fn are_texts_distinct(mut entries: Pairs<'_>) -> bool
    ensures { result ≡ are_texts_distinct (pairs_left entries.entry) }
{
    while let Some((key, _)) = entries.next() {
        if let Some(text) = key.text() {
            if has_text(entries, text) {
                return false;
            }
        }
    }
    true
}

/// Whether one of the keys is that text.
fn has_text(entries: Pairs<'_>, text: &str) -> bool
    ensures { result ≡ has_text (Some text.now) (pairs_left entries.entry) }
{
    for (key, _) in entries {
        if is_text(key, text) {
            return true;
        }
    }
    false
}

/// Whether an item is that text.
fn is_text(item: View<'_>, text: &str) -> bool
    ensures { result ≡ is_words text.now (text_in (part item.entry)) }
{
    match item.text() {
        Some(own) => own == text,
        None => false,
    }
}

/// Whether no digest identifier is there twice in one namespace.
fn have_distinct_uints(namespaces: Pairs<'_>) -> bool
    ensures { result ≡ have_distinct_uints (pairs_left namespaces.entry) }
{
    for (_, digests) in namespaces {
        if !has_distinct_uints(digests) {
            return false;
        }
    }
    true
}

/// Whether no number is there twice among the keys of a map.
#[tactic(auto, using(crate::proofs::AscendingNumbers::ascending_distinct))]
fn has_distinct_uints(map: View<'_>) -> bool
    ensures { result ≡ has_distinct_uints (part map.entry) }
{
    match map.pairs() {
        Some(pairs) => are_ascending(pairs) || are_uints_distinct(pairs),
        None => true,
    }
}

/// Whether each key is a number and more than the one before, as issuers write them: then none is there twice.
fn are_ascending(entries: Pairs<'_>) -> bool
    ensures { result ≡ are_ascending None (pairs_left entries.entry) }
{
    let mut last = None;
    for (key, _) in entries {
        let number = key.uint();
        if !is_after(number, last) {
            return false;
        }
        last = number;
    }
    true
}

/// Whether it is a number, and more than the last one.
fn is_after(number: Option<u64>, last: Option<u64>) -> bool
    ensures { result ≡ is_after number last }
{
    match (number, last) {
        (None, _) => false,
        (Some(_), None) => true,
        (Some(number), Some(last)) => last < number,
    }
}

/// Whether no number is there twice. Each is looked for among the keys after it.
fn are_uints_distinct(mut entries: Pairs<'_>) -> bool
    ensures { result ≡ are_uints_distinct (pairs_left entries.entry) }
{
    while let Some((key, _)) = entries.next() {
        if let Some(number) = key.uint() {
            if has_uint(entries, number) {
                return false;
            }
        }
    }
    true
}

/// Whether one of the keys is that number.
fn has_uint(entries: Pairs<'_>, number: u64) -> bool
    ensures { result ≡ has_uint (Some number) (pairs_left entries.entry) }
{
    for (key, _) in entries {
        if is_uint(key, number) {
            return true;
        }
    }
    false
}

/// Whether an item is that number.
fn is_uint(item: View<'_>, number: u64) -> bool
    ensures { result ≡ is_uint number (uint_in (part item.entry)) }
{
    match item.uint() {
        Some(own) => own == number,
        None => false,
    }
}

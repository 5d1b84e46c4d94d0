//! The headers of a message.

ghost use Rattle.std.specs.Prelude.{◌≡◌, Some, option_map};
ghost use Rattle.cbor_view.specs.Label.{Number, Words, is_label};
ghost use Rattle.cbor_view.specs.Pairs.{pairs_left};
ghost use Rattle.cbor_view.specs.Reading.{Gives};
ghost use Rattle.cbor_view.specs.View.{part, tree};
ghost use Rattle.cose_msgs.specs.Headers.{are_distinct, has_algorithm, has_distinct_labels, has_label, label_in, protected_map};

use crate::CoseFault;
use cbor_view::{Key, Pairs, View};

/// The label of the algorithm (RFC 9052, section 3.1).
const ALGORITHM: i64 = 1;

/// The map that the protected bytes are.
pub(crate) fn protected_map(bytes: &[u8]) -> Result<View<'_>, CoseFault>
    ensures { Gives part result (protected_map bytes.now) }
{
    let Ok(item) = View::read(bytes) else {
        return Err(CoseFault::Header);
    };
    match item.pairs() {
        Some(_) => Ok(item),
        None => Err(CoseFault::Header),
    }
}

/// Whether no label is there twice, a number or a text.
pub(crate) fn has_distinct_labels(map: View<'_>) -> bool
    ensures { result ≡ has_distinct_labels (part map.entry) }
{
    match map.pairs() {
        Some(pairs) => are_distinct(pairs),
        None => true,
    }
}

/// Whether no label is there twice. Each is looked for among the keys after it.
fn are_distinct(mut entries: Pairs<'_>) -> bool
    ensures { result ≡ are_distinct (pairs_left entries.entry) }
{
    while let Some((key, _)) = entries.next() {
        if has_label_of(entries, key) {
            return false;
        }
    }
    true
}

/// Whether one of the keys is the same label as this key.
fn has_label_of(entries: Pairs<'_>, key: View<'_>) -> bool
    ensures { result ≡ has_label (label_in (part key.entry)) (pairs_left entries.entry) }
{
    if let Some(number) = key.int() {
        has_number(entries, number)
    } else if let Some(text) = key.text() {
        has_text(entries, text)
    } else {
        false
    }
}

/// Whether one of the keys is that number.
fn has_number(entries: Pairs<'_>, number: i128) -> bool
    ensures { result ≡ has_label (Some (Number number)) (pairs_left entries.entry) }
{
    for (key, _) in entries {
        if is_integer(key, number) {
            return true;
        }
    }
    false
}

/// Whether one of the keys is that text.
fn has_text(entries: Pairs<'_>, text: &str) -> bool
    ensures { result ≡ has_label (Some (Words text.now)) (pairs_left entries.entry) }
{
    for (key, _) in entries {
        if is_text(key, text) {
            return true;
        }
    }
    false
}

/// Whether an item is that number.
fn is_integer(item: View<'_>, number: i128) -> bool
    ensures { result ≡ is_label (Number number) (tree item.entry) }
{
    match item.int() {
        Some(own) => own == number,
        None => false,
    }
}

/// Whether an item is that text.
fn is_text(item: View<'_>, text: &str) -> bool
    ensures { result ≡ is_label (Words text.now) (tree item.entry) }
{
    match item.text() {
        Some(own) => own == text,
        None => false,
    }
}

/// Whether label 1 is that algorithm.
#[tactic(auto, unfolding(cbor_maps::specs::Labels::labelled))]
pub(crate) fn has_algorithm(map: View<'_>, number: i64) -> bool
    ensures { result ≡ has_algorithm number (part map.entry) }
{
    match map.entry(Key::Int(ALGORITHM)) {
        Ok(Some(value)) => is_integer(value, i128::from(number)),
        Ok(None) => false,
        Err(_) => false,
    }
}

//! The values of a spec file's elements, as the bytes of CBOR that stand in their items.

ghost use Rattle.std.specs.Prelude.{◌≡◌, ℕ, List, IfOk, IfSome, IsTrue, map};
ghost use Rattle.std.specs.Borrow.{Bor};
ghost use Rattle.issue_spec.specs.SpecValue.{is_value, date_value, uint_value, bool_value, bytes_value, cbor_value, value_of, text_value, one_word, value_in};

use crate::spec_words::{after_four_words_and_space, bytes_of, date_of, truth_of};
use cbor_view::View;
use cbor_write::Build;
use mdoc_outside::{Memory, Octets, decimal_number};
use std::alloc::Global;
use std::str;

/// The tag of a text that is a date (RFC 8943).
const DATE: u64 = 1004;

/// The most levels of nesting of a value, which stands in the map of its item.
const MOST_LEVELS: u32 = 31;

/// Tag 1004 over the date's text.
#[tactic(auto, using(crate::proofs::SpecValues::values))]
fn date_value(alloc: Global, word: &[u8]) -> Result<Option<Octets>, Memory>
    ensures exact { IfOk result (λ value. value ≡ date_value word.now) }
    ensures item { IfOk result (λ value. IfSome value (λ v. IsTrue (is_value v))) }
{
    let Some(date) = date_of(word) else {
        return Ok(None);
    };
    let mut value = Build::new(alloc);
    value.tag(DATE)?;
    value.text(date)?;
    Ok(Some(value.finish()))
}

#[tactic(auto, using(crate::proofs::SpecValues::values))]
fn uint_value(alloc: Global, word: &[u8]) -> Result<Option<Octets>, Memory>
    ensures exact { IfOk result (λ value. value ≡ uint_value word.now) }
    ensures item { IfOk result (λ value. IfSome value (λ v. IsTrue (is_value v))) }
{
    let Some(number) = decimal_number(word) else {
        return Ok(None);
    };
    let mut value = Build::new(alloc);
    value.uint(number)?;
    Ok(Some(value.finish()))
}

#[tactic(auto, using(crate::proofs::SpecValues::values))]
fn bool_value(alloc: Global, word: &[u8]) -> Result<Option<Octets>, Memory>
    ensures exact { IfOk result (λ value. value ≡ bool_value word.now) }
    ensures item { IfOk result (λ value. IfSome value (λ v. IsTrue (is_value v))) }
{
    let Some(truth) = truth_of(word) else {
        return Ok(None);
    };
    let mut value = Build::new(alloc);
    value.boolean(truth)?;
    Ok(Some(value.finish()))
}

#[tactic(auto, using(crate::proofs::SpecValues::values))]
fn bytes_value(alloc: Global, word: &[u8]) -> Result<Option<Octets>, Memory>
    ensures exact { IfOk result (λ value. value ≡ bytes_value word.now) }
    ensures item { IfOk result (λ value. IfSome value (λ v. IsTrue (is_value v))) }
{
    let Some(bytes) = bytes_of(alloc, word)? else {
        return Ok(None);
    };
    let mut value = Build::new(alloc);
    value.bytes(bytes.as_slice())?;
    Ok(Some(value.finish()))
}

/// Whether bytes spell one item, which may stand in the map of an element's item.
#[tactic(auto, using(crate::proofs::SpecValues::values))]
fn is_value(bytes: &[u8]) -> bool
    ensures { result ≡ is_value bytes.now }
{
    match View::read(bytes) {
        Ok(item) => item.depth() <= MOST_LEVELS,
        Err(_) => false,
    }
}

/// An item as it is given.
#[tactic(auto, using(crate::proofs::SpecValues::values))]
fn cbor_value(alloc: Global, word: &[u8]) -> Result<Option<Octets>, Memory>
    ensures exact { IfOk result (λ value. value ≡ cbor_value word.now) }
    ensures item { IfOk result (λ value. IfSome value (λ v. IsTrue (is_value v))) }
{
    let Some(item) = bytes_of(alloc, word)? else {
        return Ok(None);
    };
    if !is_value(item.as_slice()) {
        return Ok(None);
    }
    Ok(Some(item))
}

/// The value that one word says, by its kind.
fn value_of(alloc: Global, kind: &[u8], word: &[u8]) -> Result<Option<Octets>, Memory>
    ensures exact { IfOk result (λ value. value ≡ value_of kind.now word.now) }
    ensures item { IfOk result (λ value. IfSome value (λ v. IsTrue (is_value v))) }
{
    if kind == b"date".as_slice() {
        date_value(alloc, word)
    } else if kind == b"uint".as_slice() {
        uint_value(alloc, word)
    } else if kind == b"bool".as_slice() {
        bool_value(alloc, word)
    } else if kind == b"bytes".as_slice() {
        bytes_value(alloc, word)
    } else if kind == b"cbor".as_slice() {
        cbor_value(alloc, word)
    } else {
        Ok(None)
    }
}

/// The text that the rest of a line says.
#[tactic(auto, using(crate::proofs::SpecValues::text_is_value, crate::proofs::SpecForms::text_passes, crate::proofs::SpecForms::other_fails))]
fn text_value(alloc: Global, bytes: &[u8]) -> Result<Option<Octets>, Memory>
    ensures exact { IfOk result (λ value. value ≡ text_value bytes.now) }
    ensures item { IfOk result (λ value. IfSome value (λ v. IsTrue (is_value v))) }
{
    let Some(said) = after_four_words_and_space(bytes) else {
        return Ok(None);
    };
    let Ok(text) = str::from_utf8(said) else {
        return Ok(None);
    };
    let mut value = Build::new(alloc);
    value.text(text)?;
    Ok(Some(value.finish()))
}

fn one_word(alloc: Global, kind: &[u8], rest: &[&[u8]]) -> Result<Option<Octets>, Memory>
    ensures exact { IfOk result (λ value. value ≡ one_word kind.now (map (λ (word : Bor (List ℕ)). word.now) rest.now)) }
    ensures item { IfOk result (λ value. IfSome value (λ v. IsTrue (is_value v))) }
{
    match rest {
        [word] => value_of(alloc, kind, word),
        _ => Ok(None),
    }
}

/// The value of a line with these bytes, whose fourth word is the kind and whose further words are `rest`.
pub(crate) fn value_in(
    alloc: Global,
    bytes: &[u8],
    kind: &[u8],
    rest: &[&[u8]],
) -> Result<Option<Octets>, Memory>
    ensures exact { IfOk result (λ value. value ≡ value_in bytes.now kind.now (map (λ (word : Bor (List ℕ)). word.now) rest.now)) }
    ensures item { IfOk result (λ value. IfSome value (λ v. IsTrue (is_value v))) }
{
    match kind {
        b"text" => text_value(alloc, bytes),
        _ => one_word(alloc, kind, rest),
    }
}

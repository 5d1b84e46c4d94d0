//! The words of a line of a spec file.

ghost use Rattle.std.specs.Prelude.{◌≡◌, ℕ, List, IfOk, IfSome, IsTrue, map, option_map};
ghost use Rattle.std.specs.Borrow.{Bor};
ghost use Rattle.mdoc_outside.specs.FileLine.{line};
ghost use Rattle.mdoc_outside.specs.Lines.{after_spaces, words};
ghost use Rattle.mdoc_outside.specs.WordForm.{is_name};
ghost use Rattle.issue_spec.specs.SpecWords.{name_of, number_within, truth_of, bytes_of, date_of, behind_word, after_four_words, after_space};

use hex::FromHexError;
use mdl_table::has_form;
use mdoc_outside::{FileLine, Memory, Octets, decimal_number, is_name};
use std::alloc::{AllocError, Global};
use std::str;

/// A copy of a name.
pub(crate) fn name_of(alloc: Global, word: &[u8]) -> Result<Option<Octets>, Memory>
    ensures exact { IfOk result (λ name. name ≡ name_of word.now) }
    ensures name { IfOk result (λ name. IfSome name (λ n. IsTrue (is_name n))) }
{
    if !is_name(word) {
        return Ok(None);
    }
    Ok(Some(Octets::copy_of(alloc, word)?))
}

/// A decimal number from the least to the most.
pub(crate) fn number_within(least: u32, most: u32, word: &[u8]) -> Option<u32>
    ensures { result ≡ number_within least most word.now }
{
    let number = decimal_number(word)?;
    if u64::from(least) <= number && number <= u64::from(most) {
        Some(number as u32)
    } else {
        None
    }
}

/// `true` or `false`.
pub(crate) fn truth_of(word: &[u8]) -> Option<bool>
    ensures { result ≡ truth_of word.now }
{
    match word {
        b"true" => Some(true),
        b"false" => Some(false),
        _ => None,
    }
}

/// Bytes in hexadecimal digits of either case, and `-` for no bytes.
pub(crate) fn bytes_of(alloc: Global, word: &[u8]) -> Result<Option<Octets>, Memory>
    ensures { IfOk result (λ bytes. bytes ≡ bytes_of word.now) }
{
    match word {
        b"-" => Ok(Some(Octets::from_vec(Vec::new(alloc)))),
        _ => match hex::decode(alloc, word) {
            Ok(bytes) => Ok(Some(Octets::from_vec(bytes))),
            Err(FromHexError::OutOfMemory) => Err(Memory),
            Err(_) => Ok(None),
        },
    }
}

/// `YYYY-MM-DD` in digits, whether or not the calendar has the day.
#[tactic(auto, using(crate::proofs::SpecForms::date_utf8))]
pub(crate) fn date_of(word: &[u8]) -> Option<&str>
    ensures { option_map (λ t. t.now) result ≡ date_of word.now }
{
    if !has_form(b"0000-00-00", word) {
        return None;
    }
    match str::from_utf8(word) {
        Ok(date) => Some(date),
        Err(_) => unreachable!(),
    }
}

fn after_spaces(bytes: &[u8]) -> &[u8]
    ensures { result.now ≡ after_spaces bytes.now }
{
    let mut left = bytes;
    while let [b' ', rest @ ..] = left {
        left = rest;
    }
    left
}

/// What stands after the first word, from a space on.
fn behind_word(bytes: &[u8]) -> &[u8]
    ensures { result.now ≡ behind_word bytes.now }
{
    let mut left = bytes;
    while let [first, rest @ ..] = left {
        if *first == b' ' {
            return left;
        }
        left = rest;
    }
    left
}

/// What stands after four words of a line, from a space on.
fn after_four_words(bytes: &[u8]) -> &[u8]
    ensures { result.now ≡ after_four_words bytes.now }
{
    let two = behind_word(after_spaces(behind_word(after_spaces(bytes))));
    behind_word(after_spaces(behind_word(after_spaces(two))))
}

/// What stands after four words of a line and one space.
pub(crate) fn after_four_words_and_space(bytes: &[u8]) -> Option<&[u8]>
    ensures { option_map (λ t. t.now) result ≡ after_space (after_four_words bytes.now) }
{
    match after_four_words(bytes) {
        [b' ', rest @ ..] => Some(rest),
        _ => None,
    }
}

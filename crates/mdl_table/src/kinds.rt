//! Whether a value is of a kind, and within its range.

ghost use Rattle.std.specs.Prelude.{◌≡◌, ◌==◌, length, option_map};
ghost use Rattle.std.specs.List.{list_all, list_any};
ghost use Rattle.std.specs.Str.{chars};
ghost use Rattle.cbor_view.specs.Items.{trees_left};
ghost use Rattle.cbor_view.specs.View.{tree};
ghost use Rattle.mdl_table.specs.Elements.{text, country, date, moment, day, bytes, number, choice, truth, maps};
ghost use Rattle.mdl_table.specs.Fitting.{tagged_text, is_short, is_country, is_map, fits_kind};

use crate::date::day_of;
use crate::moment::moment_of;
use crate::row_fault::RowFault;
use cbor_view::{Items, View};

/// The tag of a text that is a moment (RFC 8949, section 3.4.1).
const MOMENT: u64 = 0;

/// The tag of a text that is a date (RFC 8943).
const DATE: u64 = 1004;

/// The text under a tag.
fn tagged_text<'a>(tag: u64, value: View<'a>) -> Option<&'a str>
    ensures { option_map (λ t. t.now) result ≡ tagged_text tag (tree value.entry) }
{
    let (number, inside) = value.tag()?;
    if number == tag { inside.text() } else { None }
}

/// How many characters a text has.
#[tactic(auto, using(std::proofs::lemmas::Str::chars_from_encodes))]
fn character_count(text: &str) -> usize
    ensures { result ≡ length (chars text.now) }
{
    text.chars().count()
}

/// Whether a text has 1 to 150 characters.
fn is_short(text: &str) -> bool
    ensures { result ≡ is_short text.now }
{
    let count = character_count(text);
    1 <= count && count <= 150
}

/// Whether a text is two letters from A to Z.
fn is_country(text: &str) -> bool
    ensures { result ≡ is_country text.now }
{
    let letters = text.as_bytes();
    letters.len() == 2 && letters.iter().all(|letter| letter.is_ascii_uppercase())
}

/// Whether a number is one of these.
fn is_one_of(said: u64, numbers: &[u64]) -> bool
    ensures { result ≡ list_any (λ n. n == said) numbers.now }
{
    numbers.contains(&said)
}

/// Whether all items of an array are maps.
fn are_maps(items: Items<'_>) -> bool
    ensures { result ≡ list_all is_map (trees_left items.entry) }
{
    for item in items {
        if item.pairs().is_none() {
            return false;
        }
    }
    true
}

pub(crate) fn fits_text(value: View<'_>) -> Result<(), RowFault>
    ensures { result ≡ fits_kind text (tree value.entry) }
{
    match value.text() {
        Some(said) if is_short(said) => Ok(()),
        Some(_) => Err(RowFault::RangeWrong),
        None => Err(RowFault::KindWrong),
    }
}

pub(crate) fn fits_country(value: View<'_>) -> Result<(), RowFault>
    ensures { result ≡ fits_kind country (tree value.entry) }
{
    match value.text() {
        Some(said) if is_country(said) => Ok(()),
        Some(_) => Err(RowFault::RangeWrong),
        None => Err(RowFault::KindWrong),
    }
}

pub(crate) fn fits_date(value: View<'_>) -> Result<(), RowFault>
    ensures { result ≡ fits_kind date (tree value.entry) }
{
    match tagged_text(DATE, value) {
        Some(said) if day_of(said).is_some() => Ok(()),
        Some(_) => Err(RowFault::DateWrong),
        None => Err(RowFault::KindWrong),
    }
}

pub(crate) fn fits_moment(value: View<'_>) -> Result<(), RowFault>
    ensures { result ≡ fits_kind moment (tree value.entry) }
{
    match tagged_text(MOMENT, value) {
        Some(said) if moment_of(said).is_some() => Ok(()),
        Some(_) => Err(RowFault::DateWrong),
        None => Err(RowFault::KindWrong),
    }
}

pub(crate) fn fits_day(value: View<'_>) -> Result<(), RowFault>
    ensures { result ≡ fits_kind day (tree value.entry) }
{
    if tagged_text(DATE, value).is_some() {
        fits_date(value)
    } else {
        fits_moment(value)
    }
}

pub(crate) fn fits_bytes(value: View<'_>) -> Result<(), RowFault>
    ensures { result ≡ fits_kind bytes (tree value.entry) }
{
    match value.bytes() {
        Some([]) => Err(RowFault::RangeWrong),
        Some(_) => Ok(()),
        None => Err(RowFault::KindWrong),
    }
}

pub(crate) fn fits_number(value: View<'_>, low: u64, high: u64) -> Result<(), RowFault>
    ensures { result ≡ fits_kind (number low high) (tree value.entry) }
{
    match value.uint() {
        Some(said) if low <= said && said <= high => Ok(()),
        Some(_) => Err(RowFault::RangeWrong),
        None => Err(RowFault::KindWrong),
    }
}

pub(crate) fn fits_choice(value: View<'_>, numbers: &[u64]) -> Result<(), RowFault>
    ensures { result ≡ fits_kind (choice numbers.now) (tree value.entry) }
{
    match value.uint() {
        Some(said) if is_one_of(said, numbers) => Ok(()),
        Some(_) => Err(RowFault::RangeWrong),
        None => Err(RowFault::KindWrong),
    }
}

pub(crate) fn fits_truth(value: View<'_>) -> Result<(), RowFault>
    ensures { result ≡ fits_kind truth (tree value.entry) }
{
    match value.boolean() {
        Some(_) => Ok(()),
        None => Err(RowFault::KindWrong),
    }
}

pub(crate) fn fits_maps(value: View<'_>) -> Result<(), RowFault>
    ensures { result ≡ fits_kind maps (tree value.entry) }
{
    match value.items() {
        Some(items) if are_maps(items) => Ok(()),
        _ => Err(RowFault::KindWrong),
    }
}

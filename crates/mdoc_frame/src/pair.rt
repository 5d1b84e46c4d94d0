// The pairs of a row.
ghost use Rattle.std.specs.Prelude.{◌≡◌, ◌<◌, ◌^◌, map};
ghost use Rattle.std.specs.Str.{all_ascii_digits};
ghost use Rattle.mdoc_frame.specs.Number.{has_leading_zero, is_number, is_plain};
ghost use Rattle.mdoc_frame.specs.Pairs.{is_value, is_of_kind};

use crate::{PairKind, Role};

/// A pair of words of a command: the name, what the value is, and whether it has to be there.
#[derive(Clone, Copy)]
pub struct Pair {
    pub(crate) name: &'static str,
    pub(crate) kind: PairKind,
    pub(crate) needed: bool,
}

impl Pair {
    ghost use Rattle.mdoc_frame.specs.Pairs.{file_or_none, needed_file, needed_text, number};
    ghost use Rattle.mdoc_frame.specs.Row.{pair_seen};

    /// A file that has to be named.
    pub fn needed_file(name: &'static str, role: Role) -> Pair
        ensures { pair_seen result ≡ needed_file name.now role }
    {
        Pair {
            name,
            kind: PairKind::File(role),
            needed: true,
        }
    }

    /// A file that has to be named, and counts as an empty one where it is absent.
    pub fn file_or_none(name: &'static str, role: Role) -> Pair
        ensures { pair_seen result ≡ file_or_none name.now role }
    {
        Pair {
            name,
            kind: PairKind::FileOrNone(role),
            needed: true,
        }
    }

    /// A number that needn't be there.
    pub fn number(name: &'static str, least: u64, most: u64) -> Pair
        ensures { pair_seen result ≡ number name.now least most }
    {
        Pair {
            name,
            kind: PairKind::Number(least, most),
            needed: false,
        }
    }

    /// A text that has to be there.
    pub fn needed_text(name: &'static str) -> Pair
        ensures { pair_seen result ≡ needed_text name.now }
    {
        Pair {
            name,
            kind: PairKind::Text,
            needed: true,
        }
    }
}

// Whether a word may be a value: it doesn't begin with `-`.
fn is_value(word: &str) -> bool
    ensures { result ≡ is_value word.now }
{
    !matches!(word.as_bytes(), [b'-', ..])
}

// Whether a 0 stands before another digit.
fn has_leading_zero(word: &str) -> bool
    ensures { result ≡ has_leading_zero word.now }
{
    matches!(word.as_bytes(), [b'0', _, ..])
}

// Whether bytes are decimal digits alone.
fn are_digits(bytes: &[u8]) -> bool
    ensures { result ≡ all_ascii_digits bytes.now }
{
    for byte in bytes {
        if !byte.is_ascii_digit() {
            return false;
        }
    }
    true
}

// Whether a word is decimal digits alone, without leading zeros.
fn is_plain(word: &str) -> bool
    ensures { result ≡ is_plain word.now }
{
    let digits = word.as_bytes();
    !digits.is_empty() && are_digits(digits) && !has_leading_zero(word)
}

// Whether a word is a number from the least to the most.
#[tactic(auto, using(crate::proofs::NumberLemmas::too_large))]
fn is_number(least: u64, most: u64, word: &str) -> bool
    ensures { result ≡ is_number least most word.now }
{
    if !is_plain(word) {
        return false;
    }
    match word.parse::<u64>() {
        Ok(number) => least <= number && number <= most,
        Err(_) => false,
    }
}

impl PairKind {
    // Whether a word is a value of this kind.
    pub(crate) fn has(&self, word: &str) -> bool
        ensures { result ≡ is_of_kind self.now word.now }
    {
        match *self {
            PairKind::File(_) | PairKind::FileOrNone(_) | PairKind::Text => is_value(word),
            PairKind::Number(least, most) => is_number(least, most, word),
        }
    }
}

// The words of a command.
ghost use Rattle.std.specs.Prelude.{◌≡◌, ℕ, List, map, option_copied};
ghost use Rattle.mdoc_frame.specs.Pairs.{all_fit, are_pairs, fits, has_name, is_in_form, value_of, values_of};
ghost use Rattle.mdoc_frame.specs.Row.{pair_seen};

use crate::pair::Pair;
use mdoc_outside::Word;

// Whether a word is the name of one of the pairs.
fn has_name(pairs: &[Pair], name: &str) -> bool
    ensures { result ≡ has_name (map pair_seen pairs.now) name.now }
{
    for pair in pairs {
        if pair.name == name {
            return true;
        }
    }
    false
}

// Whether words are names of these pairs, each with a value.
fn are_pairs(pairs: &[Pair], words: &[Word]) -> bool
    ensures { result ≡ are_pairs (map pair_seen pairs.now) words.now }
{
    let mut left = words;
    while let [name, _, rest @ ..] = left {
        if !has_name(pairs, name.as_str()) {
            return false;
        }
        left = rest;
    }
    left.is_empty()
}

// Whether what stands with the name of a pair is as the row has it.
fn fits(pair: &Pair, words: &[Word]) -> bool
    ensures { result ≡ fits (pair_seen pair.now) (values_of pair.now.name.now words.now) }
{
    let mut found = None;
    let mut left = words;
    while let [key, value, rest @ ..] = left {
        if key.as_str() == pair.name {
            if found.is_some() {
                return false;
            }
            found = Some(value.as_str());
        }
        left = rest;
    }
    match found {
        Some(value) => pair.kind.has(value),
        None => !pair.needed,
    }
}

// Whether that is so for each pair.
fn all_fit(pairs: &[Pair], words: &[Word]) -> bool
    ensures { result ≡ all_fit (map pair_seen pairs.now) words.now }
{
    for pair in pairs {
        if !fits(pair, words) {
            return false;
        }
    }
    true
}

/// Whether words are in the form of these pairs: names of them, each with a value, and each pair with one as it has to be.
pub fn is_in_form(pairs: &[Pair], words: &[Word]) -> bool
    ensures { result ≡ is_in_form (map pair_seen pairs.now) words.now }
{
    are_pairs(pairs, words) && all_fit(pairs, words)
}

/// The value that stands with a name.
pub fn value_of<'a>(name: &str, words: &'a [Word]) -> Option<&'a str>
    ensures { option_copied result ≡ value_of name.now words.now }
{
    let mut left = words;
    while let [key, value, rest @ ..] = left {
        if key.as_str() == name {
            return Some(value.as_str());
        }
        left = rest;
    }
    None
}

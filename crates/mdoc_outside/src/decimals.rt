// The decimal numbers of line files.
ghost use Rattle.std.specs.Prelude.{◌≡◌};
ghost use Rattle.std.specs.Char.{is_ascii_digit};
ghost use Rattle.std.specs.List.{list_all};
ghost use Rattle.mdoc_outside.specs.Decimals.{decimal_number, is_decimal};

use std::str;

fn is_digits(word: &[u8]) -> bool
    ensures { result ≡ list_all is_ascii_digit word.now }
{
    word.iter().all(|byte| byte.is_ascii_digit())
}

// Whether a word is decimal digits without a leading zero.
fn is_decimal(word: &[u8]) -> bool
    ensures { result ≡ is_decimal word.now }
{
    if word.is_empty() {
        return false;
    }
    if !is_digits(word) {
        return false;
    }
    word.len() == 1 || word[0] != b'0'
}

/// A number below 2^64 that a word says in decimal digits, without a leading zero and without a sign.
#[tactic(auto, using(crate::proofs::DecimalLemmas::parsed, crate::proofs::DecimalLemmas::decimal_utf8), unfolding(crate::specs::Decimals::decimal_number))]
pub fn decimal_number(word: &[u8]) -> Option<u64>
    ensures { result ≡ decimal_number word.now }
{
    if !is_decimal(word) {
        return None;
    }
    match str::from_utf8(word) {
        Ok(text) => text.parse::<u64>().ok(),
        Err(_) => None,
    }
}

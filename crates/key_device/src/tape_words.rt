// The words of a line of a tape file.
ghost use Rattle.std.specs.Prelude.{◌≡◌, ◌==◌, ℕ, List, map, IfOk};
ghost use Rattle.std.specs.Borrow.{Bor};
ghost use Rattle.std.specs.List.{slice_split, list_all};
ghost use Rattle.std.specs.Str.{bytes_eq};
ghost use Rattle.key_device.specs.TapeLine.{number_of, is_lower_digit, bytes_of, message_of};

use hex::FromHexError;
use mdoc_outside::{Memory, Octets, decimal_number};
use std::alloc::{AllocError, Global};

// What stands between single spaces.
pub(crate) fn between_spaces<'a>(alloc: Global, line: &'a [u8]) -> Result<Vec<&'a [u8]>, AllocError>
    ensures { IfOk result (λ list. map (λ (word : Bor (List ℕ)). word.now) list.items
        ≡ slice_split (λ byte. byte == 32) line.now) }
{
    line.split(|byte| *byte == b' ').collect(alloc)
}

// Whether a word is that text.
pub(crate) fn is_text(word: &[u8], text: &[u8]) -> bool
    ensures { result ≡ bytes_eq word.now text.now }
{
    word == text
}

// A number below 2^32.
#[tactic(auto, unfolding(crate::specs::TapeLine::number_of, mdoc_outside::specs::Decimals::decimal_number))]
pub(crate) fn number_of(word: &[u8]) -> Option<u32>
    ensures { result ≡ number_of word.now }
{
    u32::try_from(decimal_number(word)?).ok()
}

fn is_lower(word: &[u8]) -> bool
    ensures { result ≡ list_all is_lower_digit word.now }
{
    word.iter()
        .all(|byte| matches!(*byte, b'0'..=b'9' | b'a'..=b'f'))
}

// So many bytes.
#[tactic(auto, unfolding(crate::specs::TapeLine::bytes_of))]
pub(crate) fn bytes_of<const N: usize>(word: &[u8]) -> Option<[u8; N]>
    ensures { result ≡ bytes_of N word.now }
{
    if !is_lower(word) {
        return None;
    }
    let mut bytes = [0; N];
    match hex::decode_to_slice(word, &mut bytes) {
        Ok(()) => Some(bytes),
        Err(_) => None,
    }
}

// Any number of bytes, and `-` for none.
#[tactic(auto, unfolding(crate::specs::TapeLine::message_of))]
pub(crate) fn message_of(alloc: Global, word: &[u8]) -> Result<Option<Octets>, Memory>
    ensures { IfOk result (λ bytes. bytes ≡ message_of word.now) }
{
    match word {
        [] => Ok(None),
        b"-" => Ok(Some(Octets::from_vec(Vec::new(alloc)))),
        _ if !is_lower(word) => Ok(None),
        _ => match hex::decode(alloc, word) {
            Ok(bytes) => Ok(Some(Octets::from_vec(bytes))),
            Err(FromHexError::OutOfMemory) => Err(Memory),
            Err(_) => Ok(None),
        },
    }
}

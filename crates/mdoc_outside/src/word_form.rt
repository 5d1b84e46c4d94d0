// Which bytes are words and names.
ghost use Rattle.std.specs.Prelude.{◌≡◌};
ghost use Rattle.std.specs.Char.{is_ascii_graphic};
ghost use Rattle.std.specs.List.{list_all};
ghost use Rattle.mdoc_outside.specs.WordForm.{is_word, is_name};

use crate::limits::MOST_NAME_BYTES;

// Whether each byte is from 21 to 7e.
fn are_visible(bytes: &[u8]) -> bool
    ensures { result ≡ list_all is_ascii_graphic bytes.now }
{
    bytes.iter().all(|b| b.is_ascii_graphic())
}

/// Whether these are the bytes of a word of a line file: at least one, each from 21 to 7e.
pub fn is_word(bytes: &[u8]) -> bool
    ensures { result ≡ is_word bytes.now }
{
    !bytes.is_empty() && are_visible(bytes)
}

/// Whether the bytes are a word of at most 128 bytes.
pub fn is_name(word: &[u8]) -> bool
    ensures { result ≡ is_name word.now }
{
    is_word(word) && word.len() <= MOST_NAME_BYTES
}

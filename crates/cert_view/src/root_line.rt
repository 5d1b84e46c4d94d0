//! A line of a roots file: `root NAME HEX`.

ghost use Rattle.std.specs.Prelude.{◌≡◌, ℕ, List, IfOk, map, option_map};
ghost use Rattle.std.specs.Borrow.{Bor};
ghost use Rattle.mdoc_outside.specs.FileLine.{line};
ghost use Rattle.mdoc_outside.specs.Lines.{words};
ghost use Rattle.cert_view.specs.Root.{listed};
ghost use Rattle.cert_view.specs.RootLine.{names_root, name_of, bytes_of, named, root_line};
ghost use Rattle.cert_view.specs.Roots.{line_root, ReadsRoots};

use crate::root::Root;
use crate::roots_fault::RootsFault;
use hex::FromHexError;
use mdoc_outside::{FileLine, MOST_CERTIFICATE_BYTES, Memory, Octets, Word, is_name};
use std::alloc::{AllocError, Global};
use std::str;

/// Whether the word may name a root: `*` and `+` say any reader, and any known one.
fn names_root(word: &[u8]) -> bool
    ensures { result ≡ names_root word.now }
{
    is_name(word) && word != b"*".as_slice() && word != b"+".as_slice()
}

/// The name of a root.
#[tactic(auto, using(crate::proofs::RootNames::name_utf8))]
fn name_of(alloc: Global, word: &[u8]) -> Result<Option<Word>, Memory>
    ensures { IfOk result (λ name. name ≡ name_of word.now) }
{
    if !names_root(word) {
        return Ok(None);
    }
    match str::from_utf8(word) {
        Ok(text) => Ok(Some(Word::copy_of(alloc, text)?)),
        Err(_) => unreachable!(),
    }
}

/// The bytes of hexadecimal digits of either case, where they are not too many.
fn bytes_of(alloc: Global, digits: &[u8]) -> Result<Option<Octets>, Memory>
    ensures { IfOk result (λ bytes. bytes ≡ bytes_of digits.now) }
{
    match hex::decode(alloc, digits) {
        Ok(bytes) if bytes.len() <= MOST_CERTIFICATE_BYTES => Ok(Some(Octets::from_vec(bytes))),
        Ok(_) => Ok(None),
        Err(FromHexError::OutOfMemory) => Err(Memory),
        Err(_) => Ok(None),
    }
}

/// The root of a name and a certificate's digits.
fn named(alloc: Global, word: &[u8], digits: &[u8]) -> Result<Option<Root>, Memory>
    ensures { IfOk result (λ root. option_map listed root ≡ named word.now digits.now) }
{
    let Some(name) = name_of(alloc, word)? else {
        return Ok(None);
    };
    let Some(bytes) = bytes_of(alloc, digits)? else {
        return Ok(None);
    };
    Ok(Root::listed_as(name, bytes))
}

/// The root that the words list, if they list one.
fn root_line(alloc: Global, words: &[&[u8]]) -> Result<Option<Root>, Memory>
    ensures { IfOk result (λ root. option_map listed root ≡ root_line (map (λ (word : Bor (List ℕ)). word.now) words.now)) }
{
    match words {
        [keyword, word, digits] if *keyword == b"root".as_slice() => named(alloc, word, digits),
        _ => Ok(None),
    }
}

/// The root of a line, or the line's number where it lists none.
pub(crate) fn line_root(alloc: Global, file_line: &FileLine<'_>) -> Result<Root, RootsFault>
    ensures { ReadsRoots listed result (line_root (line file_line.now)) }
{
    let words = file_line.word_list(alloc)?;
    match root_line(alloc, &words)? {
        Some(root) => Ok(root),
        None => Err(RootsFault::Line(file_line.number())),
    }
}

//! The lines of a spec file, each by itself.

ghost use Rattle.std.specs.Prelude.{◌≡◌, ℕ, List, IfOk, IfSome, IsTrue, map};
ghost use Rattle.std.specs.Borrow.{Bor};
ghost use Rattle.mdoc_outside.specs.FileLine.{line};
ghost use Rattle.mdoc_outside.specs.Lines.{file_lines, words};
ghost use Rattle.issue_spec.specs.SpecFacts.{is_line};
ghost use Rattle.issue_spec.specs.SpecFile.{has_new_signer};
ghost use Rattle.issue_spec.specs.SpecLine.{as_header, element_of, element_line, signer_line, said_by, spec_line, is_new_signer};

use crate::spec_element::SpecElement;
use crate::spec_header::SpecHeader;
use crate::spec_header_lines::{header_of, is_new, known_signer};
use crate::spec_line::SpecLine;
use crate::spec_values::value_in;
use crate::spec_words::name_of;
use mdoc_outside::{FileLine, Memory, lines_of};
use std::alloc::{AllocError, Global};

fn as_header(header: Option<SpecHeader>) -> Option<SpecLine>
    ensures exact { result ≡ as_header header }
    ensures line { IfSome result (λ l. IsTrue (is_line l)) }
{
    match header {
        Some(said) => Some(SpecLine::Header(said)),
        None => None,
    }
}

/// `element NAMESPACE NAME KIND VALUE`, by the bytes of the line and its words from the second on.
fn element_of(
    alloc: Global,
    bytes: &[u8],
    ns: &[u8],
    name: &[u8],
    kind: &[u8],
    rest: &[&[u8]],
) -> Result<Option<SpecLine>, Memory>
    ensures exact { IfOk result (λ said. said ≡ element_of bytes.now ns.now name.now kind.now (map (λ (word : Bor (List ℕ)). word.now) rest.now)) }
    ensures line { IfOk result (λ said. IfSome said (λ l. IsTrue (is_line l))) }
{
    let Some(ns) = name_of(alloc, ns)? else {
        return Ok(None);
    };
    let Some(name) = name_of(alloc, name)? else {
        return Ok(None);
    };
    let Some(value) = value_in(alloc, bytes, kind, rest)? else {
        return Ok(None);
    };
    Ok(Some(SpecLine::Element(SpecElement { ns, name, value })))
}

/// The same, if the keyword is `element`.
fn element_line(
    alloc: Global,
    bytes: &[u8],
    keyword: &[u8],
    ns: &[u8],
    name: &[u8],
    kind: &[u8],
    rest: &[&[u8]],
) -> Result<Option<SpecLine>, Memory>
    ensures exact { IfOk result (λ said. said ≡ element_line bytes.now keyword.now ns.now name.now kind.now (map (λ (word : Bor (List ℕ)). word.now) rest.now)) }
    ensures line { IfOk result (λ said. IfSome said (λ l. IsTrue (is_line l))) }
{
    if keyword != b"element".as_slice() {
        return Ok(None);
    }
    element_of(alloc, bytes, ns, name, kind, rest)
}

/// `signer KEY HEX`.
fn signer_line(
    alloc: Global,
    keyword: &[u8],
    key: &[u8],
    digits: &[u8],
) -> Result<Option<SpecLine>, Memory>
    ensures exact { IfOk result (λ said. said ≡ signer_line keyword.now key.now digits.now) }
    ensures line { IfOk result (λ said. IfSome said (λ l. IsTrue (is_line l))) }
{
    if keyword != b"signer".as_slice() {
        return Ok(None);
    }
    Ok(as_header(known_signer(alloc, key, digits)?))
}

/// What the words of a line with these bytes say, if they say something.
fn said_by(alloc: Global, bytes: &[u8], words: &[&[u8]]) -> Result<Option<SpecLine>, Memory>
    ensures exact { IfOk result (λ said. said ≡ said_by bytes.now (map (λ (word : Bor (List ℕ)). word.now) words.now)) }
    ensures line { IfOk result (λ said. IfSome said (λ l. IsTrue (is_line l))) }
{
    match words {
        [keyword, word] => Ok(as_header(header_of(alloc, keyword, word)?)),
        [keyword, key, digits] => signer_line(alloc, keyword, key, digits),
        [keyword, ns, name, kind, rest @ ..] => {
            element_line(alloc, bytes, keyword, ns, name, kind, rest)
        }
        _ => Ok(None),
    }
}

/// What a line says, if it says something.
pub(crate) fn spec_line(alloc: Global, file_line: &FileLine<'_>) -> Result<Option<SpecLine>, Memory>
    ensures exact { IfOk result (λ said. said ≡ spec_line (line file_line.now).bytes) }
    ensures line { IfOk result (λ said. IfSome said (λ l. IsTrue (is_line l))) }
{
    let words = file_line.word_list(alloc)?;
    said_by(alloc, file_line.bytes(), &words)
}

/// Whether the words are `signer new`.
fn is_new_signer(words: &[&[u8]]) -> bool
    ensures { result ≡ is_new_signer (map (λ (word : Bor (List ℕ)). word.now) words.now) }
{
    match words {
        [keyword, word] => *keyword == b"signer".as_slice() && is_new(word),
        _ => false,
    }
}

/// Whether a line of a file, be it bad or not, asks for new certificates.
pub(crate) fn has_new_signer(alloc: Global, text: &[u8]) -> Result<bool, AllocError>
    ensures { IfOk result (λ new. new ≡ has_new_signer (file_lines text.now)) }
{
    for line in lines_of(text) {
        let words = line.word_list(alloc)?;
        if is_new_signer(&words) {
            return Ok(true);
        }
    }
    Ok(false)
}

// The lines of a wishes file.
ghost use Rattle.std.specs.Prelude.{◌≡◌, ℕ, List, IfOk, map};
ghost use Rattle.std.specs.Borrow.{Bor};
ghost use Rattle.mdoc_frame.specs.WishLine.{document_line, want_line, wish_line};

use consent::read_flag;
use doc_request::WishDraft;
use mdoc_outside::{Memory, Octets, is_name};
use std::alloc::Global;

/// What a line of a wishes file says.
#[derive(Drop)]
pub(crate) enum WishLine {
    /// `document TYPE`: a document's type.
    Document(Octets),
    /// `want NAMESPACE ELEMENT RETAIN`: an element that is wanted of it.
    Want(WishDraft),
}

// `document TYPE`.
fn document_line(alloc: Global, keyword: &[u8], doc_type: &[u8]) -> Result<Option<WishLine>, Memory>
    ensures { IfOk result (λ line. line ≡ document_line keyword.now doc_type.now) }
{
    if keyword != b"document".as_slice() || !is_name(doc_type) {
        return Ok(None);
    }
    Ok(Some(WishLine::Document(Octets::copy_of(alloc, doc_type)?)))
}

// `want NAMESPACE ELEMENT RETAIN`.
fn want_line(
    alloc: Global,
    keyword: &[u8],
    ns: &[u8],
    name: &[u8],
    retain: &[u8],
) -> Result<Option<WishLine>, Memory>
    ensures { IfOk result (λ line. line ≡ want_line keyword.now ns.now name.now retain.now) }
{
    if keyword != b"want".as_slice() || !is_name(ns) || !is_name(name) {
        return Ok(None);
    }
    let Some(retain) = read_flag(retain) else {
        return Ok(None);
    };
    Ok(Some(WishLine::Want(WishDraft {
        ns: Octets::copy_of(alloc, ns)?,
        name: Octets::copy_of(alloc, name)?,
        retain,
    })))
}

/// What the words of a line say, if they say something.
pub(crate) fn wish_line(alloc: Global, words: &[&[u8]]) -> Result<Option<WishLine>, Memory>
    ensures { IfOk result (λ line. line ≡ wish_line (map (λ (word : Bor (List ℕ)). word.now) words.now)) }
{
    match words {
        [keyword, doc_type] => document_line(alloc, keyword, doc_type),
        [keyword, ns, name, retain] => want_line(alloc, keyword, ns, name, retain),
        _ => Ok(None),
    }
}

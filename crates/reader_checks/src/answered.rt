//! What was asked for and isn't answered.

ghost use Rattle.std.specs.Prelude.{◌≡◌, ◌++◌, IfOk, OnOk, filter, not};
ghost use Rattle.reader_checks.specs.ElementNames.{has_element};
ghost use Rattle.verdict_model.specs.Verdict.{unanswered, wanted_in, wanted_of};

use crate::accepted::AcceptedElements;
use doc_request::{DocDraft, RequestDraft, WishDraft};
use mdoc_outside::{Memory, Octets, Rows};
use std::alloc::Global;
use verdict_model::{DocVerdict, Named};

/// The names of an element that was asked for.
fn wanted_of(alloc: Global, doc_type: &Octets, wish: &WishDraft) -> Result<Named, Memory>
    ensures { IfOk result (λ named. named ≡ wanted_of doc_type.now wish.now) }
{
    let doc_type = Octets::copy_of(alloc, doc_type.as_slice())?;
    let ns = Octets::copy_of(alloc, wish.ns.as_slice())?;
    let name = Octets::copy_of(alloc, wish.name.as_slice())?;
    Ok(Named { doc_type, ns, name })
}

/// Appends what was asked for of a document and isn't answered.
fn put_unanswered(
    alloc: Global,
    asked: &DocDraft,
    answered: &AcceptedElements<'_>,
    missing: &mut Vec<Named>,
) -> Result<(), Memory>
    ensures { OnOk result (missing.new.items ≡ missing.old.items ++ filter (λ element. not (has_element answered.now element)) (wanted_in asked.now)) }
{
    for wish in asked.wishes.as_slice() {
        let (doc_type, ns, name) = (&asked.doc_type, &wish.ns, &wish.name);
        if !answered.contains(doc_type.as_slice(), ns.as_slice(), name.as_slice()) {
            let named = wanted_of(alloc, &asked.doc_type, wish)?;
            missing.push(named)?;
        }
    }
    Ok(())
}

/// The elements that were asked for of which no document has one that is accepted, in the order asked.
pub fn unanswered(
    alloc: Global,
    request: &RequestDraft,
    documents: &[DocVerdict],
) -> Result<Rows<Named>, Memory>
    ensures { IfOk result (λ missing. missing ≡ unanswered request.now documents.now) }
{
    let answered = AcceptedElements::of(alloc, documents)?;
    let mut missing = Vec::new(alloc);
    for asked in request.documents.as_slice() {
        put_unanswered(alloc, asked, &answered, &mut missing)?;
    }
    Ok(Rows::from_vec(missing))
}

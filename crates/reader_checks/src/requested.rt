//! What a request asks for.

ghost use Rattle.std.specs.Prelude.{◌≡◌, ◌||◌, ℕ, List, IfOk, OnOk};
ghost use Rattle.std.specs.List.{list_any};
ghost use Rattle.reader_checks.specs.ElementNames.{has_name};
ghost use Rattle.verdict_model.specs.Elements.{is_requested, is_wish, wants};

use crate::element_names::ElementNames;
use doc_request::{DocDraft, RequestDraft, WishDraft};
use mdoc_outside::Memory;
use std::alloc::Global;

/// Adds the elements of wishes.
#[tactic(auto, using(crate::proofs::NameSets::joined, crate::proofs::NameSets::or_none))]
fn add_wishes<'a>(
    alloc: Global,
    wishes: &'a [WishDraft],
    names: &mut ElementNames<'a>,
) -> Result<(), Memory>
    ensures { OnOk result ((ns : List ℕ) (name : List ℕ) → has_name names.new ns name ≡ (has_name names.old ns name || list_any (is_wish ns name) wishes.now)) }
{
    for wish in wishes {
        names.add(alloc, wish.ns.as_slice(), wish.name.as_slice())?;
    }
    Ok(())
}

/// Adds the elements that are asked for of a document, where it is of that type.
#[tactic(auto, using(crate::proofs::NameSets::or_none))]
fn add_asked<'a>(
    alloc: Global,
    asked: &'a DocDraft,
    doc_type: &str,
    names: &mut ElementNames<'a>,
) -> Result<(), Memory>
    ensures { OnOk result ((ns : List ℕ) (name : List ℕ) → has_name names.new ns name ≡ (has_name names.old ns name || wants doc_type.now ns name asked.now)) }
{
    if asked.doc_type.as_slice() == doc_type.as_bytes() {
        add_wishes(alloc, asked.wishes.as_slice(), names)?;
    }
    Ok(())
}

/// The elements that a request asks for of a document of that type.
#[tactic(auto, using(crate::proofs::NameSets::joined, crate::proofs::NameSets::or_none))]
pub(crate) fn requested_elements<'a>(
    alloc: Global,
    request: &'a RequestDraft,
    doc_type: &str,
) -> Result<ElementNames<'a>, Memory>
    ensures { IfOk result (λ names. (ns : List ℕ) (name : List ℕ) → has_name names ns name ≡ is_requested request.now doc_type.now ns name) }
{
    let mut names = ElementNames::new(alloc);
    for asked in request.documents.as_slice() {
        add_asked(alloc, asked, doc_type, &mut names)?;
    }
    Ok(names)
}

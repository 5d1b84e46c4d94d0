// What the holder's rules release of a store for the documents that are asked for.
ghost use Rattle.std.specs.Prelude.{◌≡◌, None, IfOk, OnOk, map, option_map, option_copied};
ghost use Rattle.std.specs.List.{AllByRecursion};
ghost use Rattle.doc_store.specs.StoreView.{documents_in};
ghost use Rattle.doc_store.specs.StoredCopy.{copy_of};
ghost use Rattle.consent.specs.Wish.{wanted};
ghost use Rattle.doc_request.specs.Draft.{IsDocument, IsWish};
ghost use Rattle.mdoc_draft.specs.AnsweredDocument.{with_answer};
ghost use Rattle.mdoc_draft.specs.Core.{answered, answered_with};
ghost use Rattle.mdoc_draft.specs.Released.{answer, shown_copy, wanted_of};

use crate::names::text_of;
use consent::{Rules, Wish};
use doc_request::{DocDraft, WishDraft};
use doc_response::AnsweredDocument;
use doc_store::{Store, StoredCopy};
use mdoc_outside::Memory;
use std::alloc::Global;

// The copy of a document type that the store shows, if it has a document of that type.
#[tactic(auto, using(crate::proofs::AnsweringLemmas::shown_absent, crate::proofs::AnsweringLemmas::shown_found))]
fn shown_copy<'a>(store: &Store<'a>, doc_type: &str) -> Option<StoredCopy<'a>>
    ensures { option_map copy_of result ≡ shown_copy (documents_in store.now) doc_type.now }
{
    match store.find(doc_type) {
        Some(document) => Some(document.copy(document.chosen())),
        None => None,
    }
}

// The stored item that answers a wish of an unknown reader.
fn answer<'a>(rules: &Rules, copy: Option<StoredCopy<'a>>, wish: &Wish<'_>) -> Option<&'a [u8]>
    ensures { option_copied result ≡ answer rules.now None (option_map copy_of copy.entry) (wanted wish.now) }
{
    if !rules.allows(wish, None) {
        return None;
    }
    match copy {
        Some(copy) => copy.item(wish.ns, wish.name),
        None => None,
    }
}

// A wish of a document type.
fn wish_of<'a>(doc_type: &'a str, wish: &'a WishDraft) -> Wish<'a>
    requires { IsWish wish.now }
    ensures { wanted result ≡ wanted_of doc_type.now wish.now }
{
    Wish {
        doc_type,
        ns: text_of(&wish.ns),
        name: text_of(&wish.name),
        retain: wish.retain,
    }
}

// Adds a wish: the item that answers it, or that it is missing.
fn add<'a>(
    document: &mut AnsweredDocument<'a>,
    wish: &Wish<'a>,
    given: Option<&'a [u8]>,
) -> Result<(), Memory>
    ensures { OnOk result (document.new ≡ with_answer document.old (wanted wish.now) (option_copied given.entry)) }
{
    match given {
        Some(raw) => document.item(wish.ns, raw),
        None => document.missing(wish.ns, wish.name),
    }
}

// What a document that is asked for is answered with, of the copy that is shown.
fn answer_document<'a>(
    alloc: Global,
    rules: &Rules,
    copy: Option<StoredCopy<'a>>,
    asked: &'a DocDraft,
) -> Result<AnsweredDocument<'a>, Memory>
    requires { IsDocument asked.now }
    ensures { IfOk result (λ document. document ≡ answered_with rules.now None (option_map copy_of copy.entry) asked.now) }
{
    let doc_type = text_of(&asked.doc_type);
    let mut document = AnsweredDocument::new(alloc, doc_type);
    let wishes = asked.wishes.as_slice();
    for draft in wishes {
        let wish = wish_of(doc_type, draft);
        add(&mut document, &wish, answer(rules, copy, &wish))?;
    }
    Ok(document)
}

// What a document that is asked for is answered with, of a store.
#[tactic(auto, using(crate::proofs::AnsweringLemmas::answered_of_shown))]
fn answer_of<'a>(
    alloc: Global,
    store: &Store<'a>,
    rules: &Rules,
    asked: &'a DocDraft,
) -> Result<AnsweredDocument<'a>, Memory>
    requires { IsDocument asked.now }
    ensures { IfOk result (λ document. document ≡ answered rules.now None (documents_in store.now) asked.now) }
{
    let copy = shown_copy(store, text_of(&asked.doc_type));
    answer_document(alloc, rules, copy, asked)
}

// What the documents that are asked for are answered with, in order.
pub(crate) fn answer_all<'a>(
    alloc: Global,
    store: &Store<'a>,
    asked: &'a [DocDraft],
    rules: &Rules,
) -> Result<Vec<AnsweredDocument<'a>>, Memory>
    requires { AllByRecursion IsDocument asked.now }
    ensures { IfOk result (λ all. all.items ≡ map (answered rules.now None (documents_in store.now)) asked.now) }
{
    let mut all = Vec::new(alloc);
    for document in asked {
        all.push(answer_of(alloc, store, rules, document)?)?;
    }
    Ok(all)
}

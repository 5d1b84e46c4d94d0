//! What is released of a document that is asked for.

ghost use Rattle.std.specs.Prelude.{◌≡◌, IfOk, OnOk, map, option_copied, option_map};
ghost use Rattle.consent.specs.Wish.{wanted};
ghost use Rattle.doc_request.specs.Views.{document_seen, element_seen};
ghost use Rattle.doc_store.specs.Store.{Copy};
ghost use Rattle.wallet_answer.specs.Found.{AreItemsOf};
ghost use Rattle.wallet_model.specs.Released.{choice, choice_of, item_for, wish_for};
ghost use Rattle.wallet_answer.specs.ChoiceView.{choice_seen, shown_seen};
ghost use Rattle.wallet_answer.specs.Progress.{answered_progress, progress_seen, with_answer};
ghost use Rattle.wallet_answer.specs.SetupView.{setup_of};

use crate::held_items::HeldItems;
use crate::released_document::ReleasedDocument;
use crate::setup::WalletSetup;
use crate::shown_copy::{ShownCopy, shown_copy};
use consent::{Rules, Wish};
use doc_request::{DocAsk, Element};
use doc_response::AnsweredDocument;
use mdoc_outside::{Memory, Octets};
use std::alloc::Global;
use wallet_model::ReleasedAt;

/// What is answered of a document so far, and the places of the released items.
#[derive(Drop)]
pub(crate) struct Progress<'a> {
    pub(crate) answered: AnsweredDocument<'a>,
    pub(crate) places: Vec<ReleasedAt>,
}

/// The wish for an element of a document type.
fn wish_of<'a>(doc_type: &'a str, element: &Element<'a>) -> Wish<'a>
    ensures { wanted result ≡ wish_for doc_type.now (element_seen element.now) }
{
    Wish {
        doc_type,
        ns: element.ns,
        name: element.name,
        retain: element.retain,
    }
}

/// The item of a wish, where the rules allow it to the reader and the copy holds it.
fn item_for<'a>(
    rules: &Rules,
    reader: Option<&str>,
    held: &HeldItems<'a>,
    wish: &Wish<'_>,
) -> Option<&'a [u8]>
    ensures { (copy : Copy) → AreItemsOf held.now copy → option_copied result ≡ item_for rules.now (option_copied reader.entry) copy (wanted wish.now) }
{
    if rules.allows(wish, reader) {
        held.item(wish.ns, wish.name)
    } else {
        None
    }
}

/// The place of an item that is released.
fn released_at(alloc: Global, document: usize, wish: &Wish<'_>) -> Result<ReleasedAt, Memory>
    ensures { IfOk result (λ at. at ≡ record { document = document; ns = wish.now.ns.now; name = wish.now.name.now }) }
{
    let ns = Octets::copy_of(alloc, wish.ns.as_bytes())?;
    let name = Octets::copy_of(alloc, wish.name.as_bytes())?;
    Ok(ReleasedAt { document, ns, name })
}

impl<'a> Progress<'a> {
    /// A wish more, with the item that is released for it, if one is.
    fn add(
        &mut self,
        alloc: Global,
        document: usize,
        wish: &Wish<'a>,
        found: Option<&'a [u8]>,
    ) -> Result<(), Memory>
        ensures { OnOk result (progress_seen self.new ≡ with_answer document (progress_seen self.old) (wanted wish.now) (option_copied found.entry)) }
    {
        match found {
            Some(raw) => {
                let at = released_at(alloc, document, wish)?;
                self.answered.item(wish.ns, raw)?;
                self.places.push(at)?;
                Ok(())
            }
            None => self.answered.missing(wish.ns, wish.name),
        }
    }
}

/// What is answered of a document, wish by wish.
fn answer_wishes<'a>(
    alloc: Global,
    rules: &Rules,
    reader: Option<&str>,
    shown: &ShownCopy<'a>,
    asked: &DocAsk<'a>,
) -> Result<Progress<'a>, Memory>
    ensures { IfOk result (λ p. progress_seen p ≡ answered_progress rules.now (option_copied reader.entry) (shown_seen shown.now) (document_seen asked.now)) }
{
    let doc_type = asked.doc_type();
    let held = HeldItems::of(alloc, &shown.copy)?;
    let mut progress = Progress {
        answered: AnsweredDocument::new(alloc, doc_type),
        places: Vec::new(alloc),
    };
    for element in asked.elements() {
        let wish = wish_of(doc_type, &element);
        let found = item_for(rules, reader, &held, &wish);
        progress.add(alloc, shown.document, &wish, found)?;
    }
    Ok(progress)
}

/// What is chosen of a document that is asked for, of the copy that is shown.
#[tactic(auto, using(crate::proofs::ChoiceLemmas::choice_nothing, crate::proofs::ChoiceLemmas::choice_something))]
fn choice_of<'a>(
    alloc: Global,
    rules: &Rules,
    reader: Option<&str>,
    shown: &ShownCopy<'a>,
    asked: &DocAsk<'a>,
) -> Result<Option<ReleasedDocument<'a>>, Memory>
    ensures { IfOk result (λ found. option_map choice_seen found ≡ choice_of rules.now (option_copied reader.entry) (document_seen asked.now) (shown_seen shown.now)) }
{
    let Progress { answered, places } = answer_wishes(alloc, rules, reader, shown, asked)?;
    if answered.items().is_empty() {
        return Ok(None);
    }
    Ok(Some(ReleasedDocument {
        key: shown.copy.key(),
        uses_mac: shown.uses_mac,
        issuer_auth: shown.copy.issuer_auth().raw(),
        answered,
        places,
    }))
}

/// What is chosen of a document that is asked for, where something of it is released to the reader.
pub(crate) fn choice<'a>(
    alloc: Global,
    setup: &WalletSetup<'a>,
    reader: Option<&str>,
    asked: &DocAsk<'a>,
) -> Result<Option<ReleasedDocument<'a>>, Memory>
    ensures { IfOk result (λ found. option_map choice_seen found ≡ choice (setup_of setup.now) (option_copied reader.entry) (document_seen asked.now)) }
{
    match shown_copy(setup, asked.doc_type()) {
        Some(shown) => choice_of(alloc, setup.rules, reader, &shown, asked),
        None => Ok(None),
    }
}

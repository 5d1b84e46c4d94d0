//! The copy of a document that is shown.

ghost use Rattle.std.specs.Prelude.{◌≡◌, option_map};
ghost use Rattle.doc_store.specs.Held.{document_place, is_of_type};
ghost use Rattle.doc_store.specs.StoreView.{documents_in};
ghost use Rattle.wallet_model.specs.Released.{shown_copy};
ghost use Rattle.wallet_answer.specs.SetupView.{setup_of};
ghost use Rattle.wallet_answer.specs.ChoiceView.{shown_seen};

use crate::setup::WalletSetup;
use doc_store::{Store, StoredCopy};

/// The copy of a document type that is shown.
#[derive(Clone, Copy)]
pub(crate) struct ShownCopy<'a> {
    /// The place of its document in the store.
    pub document: usize,
    /// Whether the document is authenticated by a MAC.
    pub uses_mac: bool,
    /// The copy.
    pub copy: StoredCopy<'a>,
}

/// The place of the document of a type.
#[tactic(auto, using(crate::proofs::PlaceLemmas::place_found, crate::proofs::PlaceLemmas::place_missing))]
fn document_place(store: &Store<'_>, doc_type: &str) -> Option<usize>
    ensures { result ≡ document_place (documents_in store.now) doc_type.now }
{
    for place in 0..store.documents() {
        if store.document(place).doc_type() == doc_type {
            return Some(place);
        }
    }
    None
}

/// The copy of a document type that is shown, where the store has a document of that type.
pub(crate) fn shown_copy<'a>(setup: &WalletSetup<'a>, doc_type: &str) -> Option<ShownCopy<'a>>
    ensures { option_map shown_seen result ≡ shown_copy (setup_of setup.now) doc_type.now }
{
    let store = setup.store;
    let choice = setup.choice;
    let place = document_place(store, doc_type)?;
    let document = store.document(place);
    let copy = *choice.get(place)?;
    if copy >= document.copies() {
        return None;
    }
    Some(ShownCopy {
        document: place,
        uses_mac: document.uses_mac(),
        copy: document.copy(copy),
    })
}

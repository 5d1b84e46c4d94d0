//! What is wrong with the documents of a store file.

ghost use Rattle.std.specs.Prelude.{◌++◌, flat_map};
ghost use Rattle.cbor_view.specs.PartialView.{partial_item};
ghost use Rattle.cbor_view.specs.PartialItems.{partial_items_left};
ghost use Rattle.mdoc_outside.specs.declared.key_name.KeyName.TheVariants as keys;
ghost use Rattle.doc_store.specs.Faults.{doc_types, document_faults, document_list_faults, documents_faults, repeats};
ghost use Rattle.doc_store.specs.Found.{Finds};

use crate::StoreCheck;
use crate::copy_faults::Copies;
use crate::first_fault::{Fault, earlier};
use crate::form_key::{FormKey, key_fault};
use crate::kind_faults::other_kind;
use crate::limit_faults::items_beyond;
use crate::repeats::{Repeats, take_types};
use crate::simple_keys::{Auth, DocType};
use cbor_view::{PartialItems, PartialView};
use mdoc_outside::{KeyName, LimitName, MOST_DOCUMENTS, Memory};
use std::alloc::Global;

/// What is wrong with a document.
#[tactic(auto, using(crate::proofs::FirstFaults::first_joined, crate::proofs::FirstFaults::earlier_none))]
fn document_fault(alloc: Global, document: &PartialView<'_>) -> Result<Option<Fault>, Memory>
    ensures { Finds result (document_faults (partial_item document.now)) }
{
    let Some(entries) = document.pairs() else {
        return Ok(other_kind(StoreCheck::Field(KeyName::DocType), document));
    };
    let doc_type = key_fault(&DocType, alloc, document, entries)?;
    let auth = key_fault(&Auth, alloc, document, entries)?;
    let copies = key_fault(&Copies, alloc, document, entries)?;
    Ok(earlier(doc_type, earlier(auth, copies)))
}

/// What is wrong with each document, and with their types.
#[tactic(auto, using(crate::proofs::FirstFaults::first_joined, crate::proofs::FirstFaults::one_more, crate::proofs::FirstFaults::earlier_none))]
fn of_documents(alloc: Global, documents: PartialItems<'_>) -> Result<Option<Fault>, Memory>
    ensures { Finds result (flat_map document_faults (partial_items_left documents.entry)
        ++ repeats (flat_map doc_types (partial_items_left documents.entry))) }
{
    let mut types = Repeats::new(alloc);
    let mut found = None;
    for document in documents {
        found = earlier(found, document_fault(alloc, &document)?);
        if let Some(entries) = document.pairs() {
            take_types(&mut types, entries)?;
        }
    }
    Ok(earlier(found, types.first()))
}

/// What is wrong with a list of documents.
#[tactic(auto, using(crate::proofs::FirstFaults::first_joined, crate::proofs::FirstFaults::earlier_none))]
fn documents_fault(alloc: Global, documents: PartialItems<'_>) -> Result<Option<Fault>, Memory>
    ensures { Finds result (document_list_faults (partial_items_left documents.entry)) }
{
    let of_each = of_documents(alloc, documents)?;
    let beyond = items_beyond(documents, LimitName::Documents, MOST_DOCUMENTS);
    Ok(earlier(of_each, beyond))
}

/// The documents of a store file.
pub(crate) struct Documents;

impl FormKey for Documents {
    ghost key = { λ _. record { name = keys.Documents; value = documents_faults } };

    fn name(&self) -> KeyName {
        KeyName::Documents
    }

    fn fault_of(&self, alloc: Global, value: &PartialView<'_>) -> Result<Option<Fault>, Memory> {
        match value.items() {
            Some(documents) => documents_fault(alloc, documents),
            None => Ok(other_kind(StoreCheck::Field(KeyName::Documents), value)),
        }
    }
}

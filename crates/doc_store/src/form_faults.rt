//! What is wrong with a store file.

ghost use Rattle.std.specs.Prelude.{◌≡◌};
ghost use Rattle.cbor_view.specs.PartialItem.{front_item};
ghost use Rattle.cbor_view.specs.PartialView.{partial_item};
ghost use Rattle.cbor_view.specs.Reading.{reads};
ghost use Rattle.doc_store.specs.Faults.{cbor_fault, faults, first_fault, form_faults};
ghost use Rattle.doc_store.specs.Found.{Finds};

use crate::StoreCheck;
use crate::document_faults::Documents;
use crate::first_fault::{Fault, earlier};
use crate::form_key::key_fault;
use crate::kind_faults::other_kind;
use crate::simple_keys::Version;
use cbor_view::{PartialView, View};
use mdoc_outside::{KeyName, Memory};
use std::alloc::Global;

/// What is wrong with the map of a file.
#[tactic(auto, using(crate::proofs::FirstFaults::first_joined, crate::proofs::FirstFaults::earlier_none))]
fn form_fault(alloc: Global, file: &PartialView<'_>) -> Result<Option<Fault>, Memory>
    ensures { Finds result (form_faults (partial_item file.now)) }
{
    let Some(entries) = file.pairs() else {
        return Ok(other_kind(StoreCheck::Field(KeyName::Version), file));
    };
    let version = key_fault(&Version, alloc, file, entries)?;
    let documents = key_fault(&Documents, alloc, file, entries)?;
    Ok(earlier(version, documents))
}

/// What is wrong with the CBOR of a file.
fn cbor_fault(file: &[u8]) -> Option<Fault>
    ensures { result ≡ first_fault (cbor_fault (reads file.now)) }
{
    match View::read(file) {
        Ok(_) => None,
        Err(found) => Some(Fault {
            check: StoreCheck::Cbor(found.kind),
            at: found.at,
        }),
    }
}

/// The first fault of a file.
#[tactic(auto, using(crate::proofs::FirstFaults::first_joined))]
pub(crate) fn first_fault_of(alloc: Global, file: &[u8]) -> Result<Option<Fault>, Memory>
    ensures { Finds result (faults file.now) }
{
    let of_form = form_fault(alloc, &PartialView::read(file))?;
    Ok(earlier(cbor_fault(file), of_form))
}

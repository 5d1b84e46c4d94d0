//! What is wrong with the copies of a document.

ghost use Rattle.std.specs.Prelude.{◌≡◌, flat_map};
ghost use Rattle.cbor_view.specs.PartialView.{partial_item};
ghost use Rattle.cbor_view.specs.PartialItems.{partial_items_left};
ghost use Rattle.mdoc_outside.specs.declared.key_name.KeyName.TheVariants as keys;
ghost use Rattle.doc_store.specs.Faults.{copies_faults, copy_faults, copy_list_faults, first_fault, no_copy};
ghost use Rattle.doc_store.specs.Found.{Finds};

use crate::StoreCheck;
use crate::first_fault::{Fault, earlier};
use crate::form_key::{FormKey, key_fault};
use crate::kind_faults::{fault, other_kind};
use crate::limit_faults::items_beyond;
use crate::namespace_faults::NameSpaces;
use crate::simple_keys::{DeviceKeyNumber, IssuerAuth, Used};
use cbor_view::{PartialItems, PartialView};
use mdoc_outside::{KeyName, LimitName, MOST_COPIES, Memory};
use std::alloc::Global;

/// What is wrong with a copy.
#[tactic(auto, using(crate::proofs::FirstFaults::first_joined, crate::proofs::FirstFaults::earlier_none))]
fn copy_fault(alloc: Global, copy: &PartialView<'_>) -> Result<Option<Fault>, Memory>
    ensures { Finds result (copy_faults (partial_item copy.now)) }
{
    let Some(entries) = copy.pairs() else {
        return Ok(other_kind(StoreCheck::Field(KeyName::Key), copy));
    };
    let key = key_fault(&DeviceKeyNumber, alloc, copy, entries)?;
    let used = key_fault(&Used, alloc, copy, entries)?;
    let issuer_auth = key_fault(&IssuerAuth, alloc, copy, entries)?;
    let name_spaces = key_fault(&NameSpaces, alloc, copy, entries)?;
    Ok(earlier(key, earlier(used, earlier(issuer_auth, name_spaces))))
}

/// The first fault of several copies.
#[tactic(auto, using(crate::proofs::FirstFaults::one_more, crate::proofs::FirstFaults::earlier_none))]
fn of_copies(alloc: Global, copies: PartialItems<'_>) -> Result<Option<Fault>, Memory>
    ensures { Finds result (flat_map copy_faults (partial_items_left copies.entry)) }
{
    let mut found = None;
    for copy in copies {
        found = earlier(found, copy_fault(alloc, &copy)?);
    }
    Ok(found)
}

/// A list of no copies.
fn no_copy(list: &PartialView<'_>, copies: PartialItems<'_>) -> Option<Fault>
    ensures { result ≡ first_fault (no_copy (partial_item list.now) (partial_items_left copies.entry)) }
{
    let mut rest = copies;
    match rest.next() {
        Some(_) => None,
        None => Some(fault(StoreCheck::Field(KeyName::Copies), list)),
    }
}

/// What is wrong with the copies of a document.
#[tactic(auto, using(crate::proofs::FirstFaults::first_joined, crate::proofs::FirstFaults::earlier_none))]
fn copies_fault(
    alloc: Global,
    list: &PartialView<'_>,
    copies: PartialItems<'_>,
) -> Result<Option<Fault>, Memory>
    ensures { Finds result (copy_list_faults (partial_item list.now) (partial_items_left copies.entry)) }
{
    let of_each = of_copies(alloc, copies)?;
    let beyond = items_beyond(copies, LimitName::Copies, MOST_COPIES);
    Ok(earlier(earlier(no_copy(list, copies), of_each), beyond))
}

/// The copies of a document.
pub(crate) struct Copies;

impl FormKey for Copies {
    ghost key = { λ _. record { name = keys.Copies; value = copies_faults } };

    fn name(&self) -> KeyName {
        KeyName::Copies
    }

    fn fault_of(&self, alloc: Global, value: &PartialView<'_>) -> Result<Option<Fault>, Memory> {
        match value.items() {
            Some(copies) => copies_fault(alloc, value, copies),
            None => Ok(other_kind(StoreCheck::Field(KeyName::Copies), value)),
        }
    }
}

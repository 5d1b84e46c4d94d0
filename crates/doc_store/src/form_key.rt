//! The keys of the maps of a store file.

ghost use Rattle.std.specs.Prelude.{◌≡◌, Some, if◌then◌else◌, is_some, not};
ghost use Rattle.std.specs.Option.{option_or};
ghost use Rattle.cbor_view.specs.PartialItem.{PartialItem, whole_in};
ghost use Rattle.cbor_view.specs.PartialView.{partial_item};
ghost use Rattle.cbor_view.specs.PartialPairs.{partial_pairs_left};
ghost use Rattle.mdoc_outside.specs.KeyName.{key_text};
ghost use Rattle.mdoc_outside.specs.ListSteps.{unless};
ghost use Rattle.doc_store.specs.Found.{Finds};
ghost use Rattle.doc_store.specs.Faults.{Key, fault, first_fault, is_text, key_faults, text_if_whole};
ghost use Rattle.doc_store.specs.declared.store_check.StoreCheck.TheVariants as checks;

use crate::StoreCheck;
use crate::first_fault::{Fault, earlier};
use crate::kind_faults::{fault, text};
use cbor_view::{PartialPairs, PartialView};
use mdoc_outside::{KeyName, Memory};
use std::alloc::Global;

/// A key of a map of the form.
pub(crate) trait FormKey {
    /// Its name, and what may be wrong with its value.
    ghost key: { Self → Key };

    /// Its name.
    fn name(&self) -> KeyName
        ensures { result ≡ (key self.now).name };

    /// The first fault of its value.
    fn fault_of(&self, alloc: Global, value: &PartialView<'_>) -> Result<Option<Fault>, Memory>
        ensures { Finds result ((key self.now).value (partial_item value.now)) };
}

/// Whether a key of a map has that name.
pub(crate) fn is_key(item: &PartialView<'_>, name: KeyName) -> bool
    ensures { result ≡ is_text (key_text name) (text_if_whole (partial_item item.now)) }
{
    match text(item) {
        Some(words) => words == name.text(),
        None => false,
    }
}

/// A key that is missing, in a map that is whole.
fn missing(map: &PartialView<'_>, name: KeyName) -> Option<Fault>
    ensures { result ≡ first_fault (unless (not (is_some (whole_in (partial_item map.now)))) (fault (checks.Field name) (partial_item map.now))) }
{
    if map.view().is_none() {
        None
    } else {
        Some(fault(StoreCheck::Field(name), map))
    }
}

/// Where a key of a map stands again, by whether it stood before and where it stood again.
fn again_at(stood: bool, again: Option<Fault>, item: &PartialView<'_>) -> Option<Fault>
    ensures { result ≡ (if stood then option_or again (Some (fault checks.Doubled (partial_item item.now))) else again) }
{
    if stood {
        again.or(Some(fault(StoreCheck::Doubled, item)))
    } else {
        again
    }
}

/// The first fault by a key of a map: it stands nowhere, it stands again, or a value of it is wrong.
#[tactic(auto, using(crate::proofs::FirstFaults::first_joined, crate::proofs::FirstFaults::one_more, crate::proofs::FirstFaults::earlier_none))]
pub(crate) fn key_fault<K: FormKey>(
    key: &K,
    alloc: Global,
    map: &PartialView<'_>,
    entries: PartialPairs<'_>,
) -> Result<Option<Fault>, Memory>
    ensures { Finds result
        (key_faults (partial_item map.now) (partial_pairs_left entries.entry) (K.key key.now)) }
{
    let name = key.name();
    let mut stands = false;
    let mut again = None;
    let mut found = None;
    for (item, value) in entries {
        if is_key(&item, name) {
            again = again_at(stands, again, &item);
            stands = true;
            if let Some(value) = value {
                found = earlier(found, key.fault_of(alloc, &value)?);
            }
        }
    }
    let missing = if stands { None } else { missing(map, name) };
    Ok(earlier(missing, earlier(again, found)))
}

//! What is wrong with the namespaces of a copy.

ghost use Rattle.std.specs.Prelude.{◌≡◌, ◌++◌, filter_map, flat_map, option_and_then, option_map, slice_get};
ghost use Rattle.cbor_view.specs.PartialItem.{partial_items};
ghost use Rattle.cbor_view.specs.PartialView.{partial_item};
ghost use Rattle.cbor_view.specs.PartialItems.{partial_items_left};
ghost use Rattle.cbor_view.specs.PartialPairs.{partial_pairs_left};
ghost use Rattle.mdoc_outside.specs.declared.key_name.KeyName.TheVariants as keys;
ghost use Rattle.doc_store.specs.Faults.{entries_faults, first_fault, items_faults, keys_in, items_or_none, name_faults, repeats, space_faults, space_items, space_value, spaces_faults, with_text};
ghost use Rattle.doc_store.specs.Found.{Finds};
ghost use Rattle.doc_store.specs.ItemOrRest.{ok_map, item_or_rest};

use crate::StoreCheck;
use crate::first_fault::{Fault, earlier};
use crate::form_key::FormKey;
use crate::kind_faults::{name_limit, other_kind, text};
use crate::limit_faults::{beyond_at, keys_beyond};
use crate::repeats::Repeats;
use crate::stored_item::fault_and_name;
use cbor_view::{PartialItems, PartialPairs, PartialView};
use mdoc_outside::{KeyName, LimitName, MOST_ITEMS, MOST_NAMESPACES, Memory};
use std::alloc::Global;

/// The check that the namespaces of a copy have their kind.
const KIND: StoreCheck = StoreCheck::Field(KeyName::NameSpaces);

/// The namespaces of a copy.
pub(crate) struct NameSpaces;

impl FormKey for NameSpaces {
    ghost key = { λ _. record { name = keys.NameSpaces; value = spaces_faults } };

    fn name(&self) -> KeyName {
        KeyName::NameSpaces
    }

    fn fault_of(&self, alloc: Global, value: &PartialView<'_>) -> Result<Option<Fault>, Memory> {
        match value.pairs() {
            Some(entries) => entries_fault(alloc, entries),
            None => Ok(other_kind(KIND, value)),
        }
    }
}

/// What is wrong with the items of a namespace.
#[tactic(auto, using(crate::proofs::FirstFaults::first_joined, crate::proofs::FirstFaults::one_more, crate::proofs::FirstFaults::earlier_none))]
fn items_fault(alloc: Global, items: PartialItems<'_>) -> Result<Option<Fault>, Memory>
    ensures { Finds result (items_faults (partial_items_left items.entry)) }
{
    let mut names = Repeats::new(alloc);
    let mut found = None;
    for item in items {
        let (own, name) = fault_and_name(&item);
        found = earlier(found, own);
        if let Some(name) = name {
            names.take(name, &item)?;
        }
    }
    Ok(earlier(found, names.first()))
}

/// The same, of the value that should be their array.
fn value_fault(alloc: Global, value: Option<PartialView<'_>>) -> Result<Option<Fault>, Memory>
    ensures { Finds result (space_value (option_map partial_item value.entry)) }
{
    let Some(value) = value else {
        return Ok(None);
    };
    match value.items() {
        Some(items) => items_fault(alloc, items),
        None => Ok(other_kind(KIND, &value)),
    }
}

/// What is wrong with the name of a namespace.
fn name_fault(name: &PartialView<'_>) -> Option<Fault>
    ensures { result ≡ first_fault (name_faults (partial_item name.now)) }
{
    match text(name) {
        Some(words) => name_limit(name, words),
        None => other_kind(KIND, name),
    }
}

/// What is wrong with a namespace.
#[tactic(auto, using(crate::proofs::FirstFaults::first_joined))]
fn space_fault(
    alloc: Global,
    name: &PartialView<'_>,
    value: Option<PartialView<'_>>,
) -> Result<Option<Fault>, Memory>
    ensures { Finds result (space_faults (partial_item name.now, option_map partial_item value.entry)) }
{
    let of_value = value_fault(alloc, value)?;
    Ok(earlier(name_fault(name), of_value))
}

/// What is wrong with each namespace, and with their names.
#[tactic(auto, using(crate::proofs::FirstFaults::first_joined, crate::proofs::FirstFaults::one_more, crate::proofs::FirstFaults::earlier_none))]
fn of_spaces(alloc: Global, entries: PartialPairs<'_>) -> Result<Option<Fault>, Memory>
    ensures { Finds result (flat_map space_faults (partial_pairs_left entries.entry)
        ++ repeats (filter_map with_text (keys_in (partial_pairs_left entries.entry)))) }
{
    let mut names = Repeats::new(alloc);
    let mut found = None;
    for (key, value) in entries {
        found = earlier(found, space_fault(alloc, &key, value)?);
        if let Some(name) = text(&key) {
            names.take(name, &key)?;
        }
    }
    Ok(earlier(found, names.first()))
}

/// The item at a place of an array, or how many places lie beyond it.
fn item_or_beyond<'a>(items: PartialItems<'a>, place: usize) -> Result<PartialView<'a>, usize>
    ensures { ok_map partial_item result ≡ item_or_rest (partial_items_left items.entry) place }
{
    let mut before = place;
    for item in items {
        if before == 0 {
            return Ok(item);
        }
        before -= 1;
    }
    Err(before)
}

/// The same of the value of a namespace.
fn in_value_or_beyond<'a>(
    value: Option<PartialView<'a>>,
    place: usize,
) -> Result<PartialView<'a>, usize>
    ensures { ok_map partial_item result
        ≡ item_or_rest (items_or_none (option_and_then partial_items (option_map partial_item value.entry))) place }
{
    let Some(value) = value else {
        return Err(place);
    };
    match value.items() {
        Some(items) => item_or_beyond(items, place),
        None => Err(place),
    }
}

/// The item at a place among those of all namespaces, if there is one.
#[tactic(auto, using(crate::proofs::Placing::get_in_append))]
fn item_of_all<'a>(entries: PartialPairs<'a>, place: usize) -> Option<PartialView<'a>>
    ensures { option_map partial_item result
        ≡ slice_get (flat_map space_items (partial_pairs_left entries.entry)) place }
{
    let mut before = place;
    for (_, value) in entries {
        match in_value_or_beyond(value, before) {
            Ok(item) => return Some(item),
            Err(beyond) => before = beyond,
        }
    }
    None
}

/// What is wrong with all namespaces.
#[tactic(auto, using(crate::proofs::FirstFaults::first_joined, crate::proofs::FirstFaults::earlier_none))]
fn entries_fault(alloc: Global, entries: PartialPairs<'_>) -> Result<Option<Fault>, Memory>
    ensures { Finds result (entries_faults (partial_pairs_left entries.entry)) }
{
    let of_each = of_spaces(alloc, entries)?;
    let spaces = keys_beyond(entries, LimitName::Namespaces, MOST_NAMESPACES);
    let past = item_of_all(entries, MOST_ITEMS);
    let items = beyond_at(LimitName::Items, MOST_ITEMS, past);
    Ok(earlier(earlier(of_each, spaces), items))
}

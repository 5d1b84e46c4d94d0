//! Names that stand twice in a list of a store file.

ghost use Rattle.std.specs.Prelude.{◌≡◌, ◌∷◌, ◌++◌, [], List, OnOk, filter_map, ℕ};
ghost use Rattle.cbor_view.specs.PartialItem.{PartialItem};
ghost use Rattle.cbor_view.specs.PartialView.{partial_item};
ghost use Rattle.cbor_view.specs.PartialPairs.{partial_pairs_left};
ghost use Rattle.doc_store.specs.Faults.{first_fault, repeats, values_of, with_text};
ghost use Rattle.doc_store.specs.Names.{repeats_from};
ghost use Rattle.mdoc_outside.specs.declared.key_name.KeyName.TheVariants as keys;

use crate::StoreCheck;
use crate::first_fault::Fault;
use crate::form_key::is_key;
use crate::kind_faults::{fault, text};
use crate::names::Names;
use cbor_view::{PartialPairs, PartialView};
use mdoc_outside::{KeyName, Memory};
use std::alloc::Global;

/// The names of a list so far, and the first of them that is equal to one before it.
#[derive(Drop)]
pub(crate) struct Repeats<'a> {
    names: Names<'a>,
    first: Option<Fault>,
}

impl<'a> Repeats<'a> {
    /// No names yet.
    pub(crate) fn new(alloc: Global) -> Repeats<'a>
        ensures { (names : List (List ℕ × PartialItem)) → repeats_from result names ≡ repeats names }
    {
        Repeats {
            names: Names::new(alloc),
            first: None,
        }
    }

    /// One more name, and the item that has it.
    pub(crate) fn take(&mut self, name: &'a str, at: &PartialView<'_>) -> Result<(), Memory>
        ensures { OnOk result ((others : List (List ℕ × PartialItem)) →
            repeats_from self.old ((name.now, partial_item at.now) ∷ others) ≡ repeats_from self.new others) }
    {
        if self.first.is_some() {
            return Ok(());
        }
        if self.names.seen_before(name)? {
            self.first = Some(fault(StoreCheck::Doubled, at));
        }
        Ok(())
    }

    /// The fault of the first that is equal to one before it.
    pub(crate) fn first(&self) -> Option<Fault>
        ensures { result ≡ first_fault (repeats_from self.now []) }
    {
        self.first
    }
}

/// The document types that the map of a document has, which are taken by their order.
pub(crate) fn take_types<'a>(
    types: &mut Repeats<'a>,
    entries: PartialPairs<'a>,
) -> Result<(), Memory>
    ensures { OnOk result ((others : List (List ℕ × PartialItem)) →
        repeats_from types.old (filter_map with_text (values_of keys.DocType (partial_pairs_left entries.entry)) ++ others)
        ≡ repeats_from types.new others) }
{
    for (key, value) in entries {
        if is_key(&key, KeyName::DocType) {
            if let Some(value) = value {
                if let Some(doc_type) = text(&value) {
                    types.take(doc_type, &value)?;
                }
            }
        }
    }
    Ok(())
}

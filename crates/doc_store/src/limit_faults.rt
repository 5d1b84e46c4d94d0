//! Limits on the lists of a store file.

ghost use Rattle.std.specs.Prelude.{◌≡◌, ◌<◌, ◌^◌, option_map, slice_get};
ghost use Rattle.cbor_view.specs.PartialView.{partial_item};
ghost use Rattle.cbor_view.specs.PartialItems.{partial_items_left};
ghost use Rattle.cbor_view.specs.PartialPairs.{partial_pairs_left};
ghost use Rattle.doc_store.specs.Faults.{first_fault, keys_in, beyond, beyond_at};

use crate::StoreCheck;
use crate::first_fault::Fault;
use crate::kind_faults::fault;
use cbor_view::{PartialItems, PartialPairs, PartialView};
use mdoc_outside::LimitName;

/// The item of an array at a place, if there is one.
fn item_at<'a>(items: PartialItems<'a>, place: usize) -> Option<PartialView<'a>>
    ensures { option_map partial_item result ≡ slice_get (partial_items_left items.entry) place }
{
    let mut before = place;
    for item in items {
        if before == 0 {
            return Some(item);
        }
        before -= 1;
    }
    None
}

/// The key of a map at a place, if there is one.
fn key_at<'a>(entries: PartialPairs<'a>, place: usize) -> Option<PartialView<'a>>
    ensures { option_map partial_item result ≡ slice_get (keys_in (partial_pairs_left entries.entry)) place }
{
    let mut before = place;
    for (key, _) in entries {
        if before == 0 {
            return Some(key);
        }
        before -= 1;
    }
    None
}

/// The fault of the item that exceeds a limit, if there is one.
pub(crate) fn beyond_at(
    limit: LimitName,
    most: usize,
    item: Option<PartialView<'_>>,
) -> Option<Fault>
    requires { most < 2 ^ 32 }
    ensures { result ≡ first_fault (beyond_at limit most (option_map partial_item item.entry)) }
{
    match item {
        Some(item) => Some(fault(StoreCheck::Limit(limit, most as u64 + 1), &item)),
        None => None,
    }
}

/// The item of an array that exceeds a limit.
pub(crate) fn items_beyond(items: PartialItems<'_>, limit: LimitName, most: usize) -> Option<Fault>
    requires { most < 2 ^ 32 }
    ensures { result ≡ first_fault (beyond limit most (partial_items_left items.entry)) }
{
    beyond_at(limit, most, item_at(items, most))
}

/// The key of a map that exceeds a limit.
pub(crate) fn keys_beyond(entries: PartialPairs<'_>, limit: LimitName, most: usize) -> Option<Fault>
    requires { most < 2 ^ 32 }
    ensures { result ≡ first_fault (beyond limit most (keys_in (partial_pairs_left entries.entry))) }
{
    beyond_at(limit, most, key_at(entries, most))
}

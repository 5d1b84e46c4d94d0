//! What is wrong with a stored item, and its name.

ghost use Rattle.std.specs.Prelude.{◌≡◌, length, option_map};
ghost use Rattle.cbor_view.specs.View.{part};
ghost use Rattle.cbor_view.specs.PartialView.{partial_item};
ghost use Rattle.doc_store.specs.Faults.{cut_item, first_fault, item_faults, item_name, value_limit};

use crate::first_fault::{Fault, earlier};
use crate::kind_faults::{fault, is_broken, name_limit, other_kind};
use crate::{ItemFault, StoreCheck};
use cbor_view::{ENCODED, PartialView, View};
use issuer_items::Item;
use mdoc_outside::{LimitName, MOST_VALUE_BYTES};

/// A value that is too long.
fn value_limit(at: &PartialView<'_>, value: &View<'_>) -> Option<Fault>
    ensures { result ≡ first_fault (value_limit (partial_item at.now) (length (part value.now).bytes)) }
{
    let length = value.raw().len();
    if length <= MOST_VALUE_BYTES {
        None
    } else {
        Some(fault(StoreCheck::Limit(LimitName::Value, length as u64), at))
    }
}

/// What is wrong with an item that isn't whole, beside its CBOR.
fn cut_item(at: &PartialView<'_>) -> Option<Fault>
    ensures { result ≡ first_fault (cut_item (partial_item at.now)) }
{
    let check = StoreCheck::Item(ItemFault::NotTagged);
    match at.tag() {
        Some((ENCODED, inner)) if is_broken(&inner) => None,
        Some(_) => Some(fault(check, at)),
        None => other_kind(check, at),
    }
}

/// What is wrong with a stored item, and its name where it is one.
#[tactic(auto, using(crate::proofs::FirstFaults::first_joined), unfolding(crate::specs::Item::item))]
pub(crate) fn fault_and_name<'a>(item: &PartialView<'a>) -> (Option<Fault>, Option<&'a str>)
    ensures fault { result.0 ≡ first_fault (item_faults (partial_item item.now)) }
    ensures name { option_map (λ name. (name.now, partial_item item.now)) result.1 ≡ item_name (partial_item item.now) }
{
    let Some(raw) = item.view() else {
        return (cut_item(item), None);
    };
    match Item::read(raw.raw()) {
        Ok(read) => {
            let name = read.name();
            let limit = earlier(name_limit(item, name), value_limit(item, &read.value()));
            (limit, Some(name))
        }
        Err(wrong) => (Some(fault(StoreCheck::Item(wrong), item)), None),
    }
}

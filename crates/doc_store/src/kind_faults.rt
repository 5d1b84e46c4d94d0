//! The faults of items by their kinds.

ghost use Rattle.std.specs.Prelude.{◌≡◌, Some, option_map};
ghost use Rattle.cbor_view.specs.PartialView.{partial_item};
ghost use Rattle.doc_store.specs.Faults.{boolean_if_whole, fault, first_fault, is_broken, name_limit, other_kind, text_if_whole, uint_if_whole};

use crate::StoreCheck;
use crate::first_fault::Fault;
use cbor_view::PartialView;
use mdoc_outside::{LimitName, MOST_NAME_BYTES};

/// A check that fails at the head of an item.
pub(crate) fn fault(check: StoreCheck, at: &PartialView<'_>) -> Fault
    ensures { result ≡ fault check (partial_item at.now) }
{
    Fault { check, at: at.at() }
}

/// Whether the head, the string or the count of an item is broken.
#[tactic(auto, using(crate::proofs::PartialKinds::is_broken_by))]
pub(crate) fn is_broken(item: &PartialView<'_>) -> bool
    ensures { result ≡ is_broken (partial_item item.now) }
{
    item.view().is_none()
        && item.items().is_none()
        && item.pairs().is_none()
        && item.tag().is_none()
}

/// An item of another kind than it has to be.
pub(crate) fn other_kind(check: StoreCheck, item: &PartialView<'_>) -> Option<Fault>
    ensures { result ≡ first_fault (other_kind check (partial_item item.now)) }
{
    if is_broken(item) {
        None
    } else {
        Some(fault(check, item))
    }
}

/// The number of an unsigned integer that is whole.
pub(crate) fn uint(item: &PartialView<'_>) -> Option<u64>
    ensures { result ≡ uint_if_whole (partial_item item.now) }
{
    item.view()?.uint()
}

/// The text that is whole.
pub(crate) fn text<'a>(item: &PartialView<'a>) -> Option<&'a str>
    ensures { option_map (λ t. t.now) result ≡ text_if_whole (partial_item item.now) }
{
    item.view()?.text()
}

/// The truth value.
pub(crate) fn boolean(item: &PartialView<'_>) -> Option<bool>
    ensures { result ≡ boolean_if_whole (partial_item item.now) }
{
    item.view()?.boolean()
}

/// A name that is too long.
pub(crate) fn name_limit(item: &PartialView<'_>, name: &str) -> Option<Fault>
    ensures { result ≡ first_fault (name_limit (partial_item item.now) name.now) }
{
    if name.len() <= MOST_NAME_BYTES {
        None
    } else {
        Some(fault(StoreCheck::Limit(LimitName::Name, name.len() as u64), item))
    }
}

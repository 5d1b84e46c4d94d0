//! The first of the faults of a store file.

ghost use Rattle.std.specs.Prelude.{◌≡◌};
ghost use Rattle.doc_store.specs.Faults.{is_before, rank, earlier};

use crate::StoreCheck;
use mdoc_outside::LimitName;

/// A check of a store file that fails, and where.
#[derive(Clone, Copy, Debug, PartialEq, Eq)]
pub struct Fault {
    /// The check.
    pub check: StoreCheck,
    /// Where, as an offset in the file: the item that is wrong, or the map that lacks a field.
    pub at: usize,
}

/// The order of the checks at one place.
fn rank(check: StoreCheck) -> u8
    ensures { result ≡ rank check }
{
    match check {
        StoreCheck::Cbor(_) => 0,
        StoreCheck::Field(_) => 1,
        StoreCheck::Version => 2,
        StoreCheck::Doubled => 3,
        StoreCheck::Item(_) => 4,
        StoreCheck::Limit(LimitName::Documents, _) => 5,
        StoreCheck::Limit(LimitName::Namespaces, _) => 6,
        StoreCheck::Limit(LimitName::Items, _) => 7,
        StoreCheck::Limit(LimitName::Copies, _) => 8,
        StoreCheck::Limit(LimitName::Value, _) => 9,
        StoreCheck::Limit(_, _) => 10,
    }
}

/// Whether a fault stands before another.
fn is_before(one: &Fault, other: &Fault) -> bool
    ensures { result ≡ is_before one.now other.now }
{
    one.at < other.at || one.at == other.at && rank(one.check) < rank(other.check)
}

/// The first of two, and of equals the one.
pub(crate) fn earlier(one: Option<Fault>, other: Option<Fault>) -> Option<Fault>
    ensures { result ≡ earlier one other }
{
    match (one, other) {
        (Some(one), Some(other)) if is_before(&other, &one) => Some(other),
        (Some(one), _) => Some(one),
        (None, other) => other,
    }
}

//! The checks of an element, in their order.

ghost use Rattle.std.specs.Prelude.{◌≡◌};
ghost use Rattle.issuer_items.specs.ItemView.{fields, raw_of};
ghost use Rattle.reader_checks.specs.FirstCheck.{HaveLength, first_check};

use crate::digest::digest_check;
use crate::element_names::ElementNames;
use issuer_items::Item;
use mso_digests::DigestIndex;
use verdict_model::ElementCheck;

/// The first check of an item that fails: by the digests of its object, the elements that are asked for, and those that are accepted
/// already.
pub(crate) fn first_check(
    digests: &DigestIndex<'_>,
    requested: &ElementNames<'_>,
    accepted: &ElementNames<'_>,
    ns: &str,
    item: &Item<'_>,
) -> Option<ElementCheck>
    requires { HaveLength digests.now }
    ensures { result ≡ first_check digests.now requested.now accepted.now ns.now (raw_of item.now) (fields item.now) }
{
    if let Some(check) = digest_check(digests, ns, item) {
        return Some(check);
    }
    if accepted.contains(ns.as_bytes(), item.name().as_bytes()) {
        return Some(ElementCheck::Repeated);
    }
    if !requested.contains(ns.as_bytes(), item.name().as_bytes()) {
        return Some(ElementCheck::NotRequested);
    }
    None
}

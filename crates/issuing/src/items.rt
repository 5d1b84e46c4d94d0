//! The items of a copy.

ghost use Rattle.std.specs.Prelude.{◌≡◌, ◌≤◌, length, IfOk, IsTrue};
ghost use Rattle.cbor_view.specs.Tree.{levels};
ghost use Rattle.cbor_view.specs.View.{part, tree};
ghost use Rattle.issuer_items.specs.WrittenItem.{item_bytes};
ghost use Rattle.issue_spec.specs.SpecFacts.{is_element};
ghost use Rattle.issuing.specs.IssuedItems.{issued_item, count_in_namespace};

use crate::issued_item::IssuedItem;
use cbor_view::View;
use issue_spec::SpecElement;
use issuer_items::write_item;
use mdoc_outside::{Memory, Octets};
use std::alloc::Global;

/// How many of the elements are of that namespace.
pub fn count_in_namespace(ns: &[u8], elements: &[SpecElement]) -> usize
    ensures number { result ≡ count_in_namespace ns.now elements.now }
    ensures few { result ≤ length elements.now }
{
    let mut count = 0;
    for element in elements {
        if element.ns.as_slice() == ns {
            count += 1;
        }
    }
    count
}

/// The name of an element, as text.
#[tactic(auto, using(crate::proofs::ElementLemmas::name_text))]
fn name_of(element: &SpecElement) -> &str
    requires { IsTrue (is_element element.now) }
    ensures { result.now ≡ element.now.name }
{
    match str::from_utf8(element.name.as_slice()) {
        Ok(name) => name,
        Err(_) => unreachable!(),
    }
}

/// The value of an element.
fn value_of(element: &SpecElement) -> View<'_>
    requires { IsTrue (is_element element.now) }
    ensures bytes { (part result).bytes ≡ element.now.value }
    ensures nesting { levels (tree result) ≤ 31 }
{
    match View::read(element.value.as_slice()) {
        Ok(value) => value,
        Err(_) => unreachable!(),
    }
}

/// The bytes of the item of an element with that digest identifier (IssuerSignedItemBytes; ISO/IEC 18013-5, 8.3.2.1.2.2).
pub fn write_element(
    alloc: Global,
    number: u64,
    element: &SpecElement,
    salt: &[u8; 32],
) -> Result<Octets, Memory>
    requires { IsTrue (is_element element.now) }
    ensures { IfOk result (λ b. b ≡ item_bytes (record { digest_id = number; random = salt.now; name = element.now.name; value = element.now.value })) }
{
    write_item(alloc, number, salt, name_of(element), value_of(element))
}

/// The item of an element, which has these others before it.
pub(crate) fn write_one(
    alloc: Global,
    before: &[SpecElement],
    element: &SpecElement,
    salt: &[u8; 32],
) -> Result<IssuedItem, Memory>
    requires { IsTrue (is_element element.now) }
    ensures { IfOk result (λ i. i ≡ issued_item before.now element.now salt.now) }
{
    let number = count_in_namespace(element.ns.as_slice(), before) as u64;
    let raw = write_element(alloc, number, element, salt)?;
    let ns = Octets::copy_of(alloc, element.ns.as_slice())?;
    Ok(IssuedItem { ns, number, raw })
}

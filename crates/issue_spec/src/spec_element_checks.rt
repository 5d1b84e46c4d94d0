//! The checks of an element line of a spec file.

ghost use Rattle.std.specs.Prelude.{◌≡◌, IsTrue};
ghost use Rattle.std.specs.List.{list_any};
ghost use Rattle.std.specs.Str.{bytes_eq};
ghost use Rattle.cbor_view.specs.Reading.{tree_of};
ghost use Rattle.cbor_view.specs.View.{tree};
ghost use Rattle.mdoc_outside.specs.WordForm.{is_name};
ghost use Rattle.issue_spec.specs.SpecChecks.{is_in_table, broken_row};
ghost use Rattle.issue_spec.specs.SpecFacts.{is_element};
ghost use Rattle.issue_spec.specs.SpecValue.{is_value};
ghost use Rattle.issue_spec.specs.SpecSoFar.{is_same_element, has_element};

use crate::spec_check::SpecCheck;
use crate::spec_element::SpecElement;
use cbor_view::View;
use mdl_table::fits;
use mdoc_outside::Octets;
use std::str;

/// The namespace of the element table (ISO/IEC 18013-5, 7.2.1).
const TABLE_NAMESPACE: &[u8] = b"org.iso.18013.5.1";

/// Whether two elements have one namespace and name.
fn is_same_element(a: &SpecElement, b: &SpecElement) -> bool
    ensures { result ≡ is_same_element a.now b.now }
{
    a.ns.as_slice() == b.ns.as_slice() && a.name.as_slice() == b.name.as_slice()
}

/// Whether an element of that namespace and name is there.
pub(crate) fn has_element(elements: &[SpecElement], element: &SpecElement) -> bool
    ensures { result ≡ has_element elements.now element.now }
{
    elements.iter().any(|other| is_same_element(element, other))
}

/// Whether a namespace is there.
pub(crate) fn has_namespace(namespaces: &[Octets], ns: &[u8]) -> bool
    ensures { result ≡ list_any (bytes_eq ns.now) namespaces.now }
{
    namespaces.iter().any(|other| ns == other.as_slice())
}

/// Whether an element is of the namespace of the element table.
pub(crate) fn is_in_table(element: &SpecElement) -> bool
    ensures { result ≡ is_in_table element.now }
{
    element.ns.as_slice() == TABLE_NAMESPACE
}

/// The text of a name.
#[tactic(auto, using(crate::proofs::SpecForms::name_is_text))]
pub(crate) fn text_of(name: &Octets) -> &str
    requires { IsTrue (is_name name.now) }
    ensures { result.now ≡ name.now }
{
    match str::from_utf8(name.as_slice()) {
        Ok(text) => text,
        Err(_) => unreachable!(),
    }
}

/// The view of a value.
fn view_of(value: &Octets) -> View<'_>
    requires { IsTrue (is_value value.now) }
    ensures { tree result ≡ tree_of value.now }
{
    match View::read(value.as_slice()) {
        Ok(view) => view,
        Err(_) => unreachable!(),
    }
}

/// How an element breaks its row of the element table, if it has one and breaks it.
pub(crate) fn broken_row(element: &SpecElement) -> Option<SpecCheck>
    requires { IsTrue (is_element element.now) }
    ensures { result ≡ broken_row element.now }
{
    if !is_in_table(element) {
        return None;
    }
    match fits(text_of(&element.name), view_of(&element.value)) {
        Ok(()) => None,
        Err(fault) => Some(SpecCheck::Row(fault)),
    }
}

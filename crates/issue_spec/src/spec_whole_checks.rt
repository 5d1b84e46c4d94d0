//! The checks of what a whole spec file says.

ghost use Rattle.std.specs.Prelude.{◌≡◌, IsTrue, find, not};
ghost use Rattle.issue_spec.specs.SpecChecks.{is_row, is_of_row, has_row, mandatory, missing, are_in_order, first_failed, whole_checks};
ghost use Rattle.issue_spec.specs.SpecFacts.{is_element, AreElements};

use crate::spec_check::SpecCheck;
use crate::spec_element::SpecElement;
use crate::spec_element_checks::{is_in_table, text_of};
use crate::spec_fields::SpecFields;
use mdl_table::{Row, row_of};

/// The type of a mobile driving licence (ISO/IEC 18013-5, 7.1).
const LICENCE_TYPE: &[u8] = b"org.iso.18013.5.1.mDL";

/// The numbers of the mandatory rows of the element table.
const MANDATORY: [u8; 11] = [1, 2, 3, 4, 5, 6, 7, 8, 9, 10, 11];

fn is_row(number: u8, row: Option<Row>) -> bool
    ensures { result ≡ is_row number row }
{
    match row {
        Some(row) => row.number == number,
        None => false,
    }
}

/// Whether an element is of the row of a number.
fn is_of_row(number: u8, element: &SpecElement) -> bool
    requires { IsTrue (is_element element.now) }
    ensures { result ≡ is_of_row number element.now }
{
    is_in_table(element) && is_row(number, row_of(text_of(&element.name)))
}

/// Whether one of the elements is of the row of a number.
fn has_row(elements: &[SpecElement], number: u8) -> bool
    requires { AreElements elements.now }
    ensures { result ≡ has_row elements.now number }
{
    for element in elements {
        if is_of_row(number, element) {
            return true;
        }
    }
    false
}

/// The first of some numbers of rows of which there is no element.
fn first_without_row(elements: &[SpecElement], numbers: &[u8]) -> Option<u8>
    requires { AreElements elements.now }
    ensures { result ≡ find (λ number. not (has_row elements.now number)) numbers.now }
{
    for number in numbers {
        if !has_row(elements, *number) {
            return Some(*number);
        }
    }
    None
}

/// The number of the first mandatory row of which there is no element.
#[tactic(auto, using(crate::proofs::SpecMandatory::mandatory_rows))]
fn first_missing(elements: &[SpecElement]) -> Option<u8>
    requires { AreElements elements.now }
    ensures { result ≡ find (λ number. not (has_row elements.now number)) mandatory }
{
    first_without_row(elements, &MANDATORY)
}

/// What a licence lacks.
fn missing(fields: &SpecFields) -> Option<SpecCheck>
    requires { AreElements fields.now.elements }
    ensures { result ≡ missing fields.now }
{
    if fields.doc_type.as_slice() != LICENCE_TYPE {
        return None;
    }
    match first_missing(fields.elements.as_slice()) {
        Some(number) => Some(SpecCheck::Missing(number)),
        None => None,
    }
}

fn are_in_order(fields: &SpecFields) -> bool
    ensures { result ≡ are_in_order fields.now }
{
    fields.signed <= fields.from && fields.from <= fields.until
}

/// The first check of the whole that fails.
pub(crate) fn whole_check(fields: &SpecFields) -> Option<SpecCheck>
    requires { AreElements fields.now.elements }
    ensures { result ≡ first_failed (whole_checks fields.now) }
{
    if let Some(check) = missing(fields) {
        return Some(check);
    }
    if !are_in_order(fields) {
        return Some(SpecCheck::Order);
    }
    None
}

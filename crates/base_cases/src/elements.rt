//! The table of elements.

use cbor_view::View;
use mdl_table::{fits, row_of};
use std::alloc::Global;

/// The row of a name, and whether it is mandatory.
pub(crate) fn row_of_name(alloc: Global, name: &str) -> Option<String> {
    match row_of(name) {
        Some(row) => {
            let (number, mandatory) = (row.number, row.mandatory);
            format!(in alloc; "{number} {mandatory}").ok()
        }
        None => String::from_str(alloc, "none").ok(),
    }
}

/// What a value is for the row of a name.
pub(crate) fn fit_of(alloc: Global, given: &str) -> Option<String> {
    let (name, digits) = given.split_once(' ')?;
    let bytes = hex::decode(alloc, digits.as_bytes()).ok()?;
    match fits(name, View::read(&bytes).ok()?) {
        Ok(()) => String::from_str(alloc, "Ok").ok(),
        Err(fault) => format!(in alloc; "{fault:?}").ok(),
    }
}

//! Whether a value fits the row of its element.

ghost use Rattle.std.specs.Prelude.{◌≡◌, ◌≤◌};
ghost use Rattle.cbor_view.specs.View.{tree};
ghost use Rattle.mdl_table.specs.Elements.{element_at};
ghost use Rattle.mdl_table.specs.Fitting.{fits_row, fits};

use crate::kinds::{
    fits_bytes, fits_choice, fits_country, fits_date, fits_day, fits_maps, fits_moment,
    fits_number, fits_text, fits_truth,
};
use crate::row_fault::RowFault;
use crate::table::number_of;
use cbor_view::View;

macro_rules! rows {
    ($number:ident, $value:ident; $($row:literal => $fits:ident($($bound:expr),*)),* $(,)?) => {
        match $number {
            $($row => $fits($value $(, $bound)*),)*
            _ => Ok(()),
        }
    };
}

/// Whether a value fits the row of a number.
#[tactic(auto, unfolding(crate::specs::Elements::element_at, crate::specs::Elements::elements))]
fn fits_row(number: u8, value: View<'_>) -> Result<(), RowFault>
    ensures { result ≡ fits_row (element_at number) (tree value.entry) }
{
    rows! {
        number, value;
        1 => fits_text(),
        2 => fits_text(),
        3 => fits_date(),
        4 => fits_day(),
        5 => fits_day(),
        6 => fits_country(),
        7 => fits_text(),
        8 => fits_text(),
        9 => fits_bytes(),
        10 => fits_maps(),
        11 => fits_text(),
        12 => fits_text(),
        13 => fits_choice(&[0, 1, 2, 9]),
        14 => fits_number(1, 300),
        15 => fits_number(1, 700),
        16 => fits_text(),
        17 => fits_text(),
        18 => fits_text(),
        19 => fits_text(),
        20 => fits_moment(),
        21 => fits_number(0, 200),
        22 => fits_number(0, 9999),
        23 => fits_text(),
        24 => fits_country(),
        25 => fits_text(),
        26 => fits_text(),
        27 => fits_text(),
        28 => fits_country(),
        29 => fits_text(),
        30 => fits_text(),
        31 => fits_bytes(),
        32 => fits_truth(),
    }
}

/// Whether a value fits the row that stands for a name; every value of a name without a row fits.
pub fn fits(name: &str, value: View<'_>) -> Result<(), RowFault>
    ensures { result ≡ fits name.now (tree value.entry) }
{
    match number_of(name) {
        Some(number) => fits_row(number, value),
        None => Ok(()),
    }
}

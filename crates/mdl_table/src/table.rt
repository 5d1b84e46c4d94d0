//! The rows of the element table.

ghost use Rattle.std.specs.Prelude.{◌≡◌, ◌<◌, ◌≤◌, Some, IfSome, option_map, slice_get};
ghost use Rattle.mdl_table.specs.Elements.{number_of, element_at, row, row_of};

use crate::form::has_form;
use crate::row::Row;

/// Rows in the order of their numbers.
struct Table<const N: usize> {
    rows: [Row; N],
}

impl<const N: usize> Table<N> {
    /// The row at a place, from 0.
    fn at(&self, place: usize) -> Row
        requires { place < N }
        ensures { slice_get self.now.rows place ≡ Some result }
    {
        self.rows[place]
    }
}

macro_rules! rows {
    ($($number:literal $mandatory:literal),* $(,)?) => {
        [$(Row { number: $number, mandatory: $mandatory }),*]
    };
}

/// Each row with its number, and whether it is mandatory.
const ROWS: Table<32> = Table {
    rows: rows![
        1 true, 2 true, 3 true, 4 true, 5 true, 6 true, 7 true, 8 true, 9 true, 10 true, 11 true,
        12 false, 13 false, 14 false, 15 false, 16 false, 17 false, 18 false, 19 false, 20 false,
        21 false, 22 false, 23 false, 24 false, 25 false, 26 false, 27 false, 28 false, 29 false,
        30 false, 31 false, 32 false,
    ],
};

macro_rules! numbers {
    ($name:ident; $($text:literal => $number:literal),* ; $form:literal => $last:literal) => {
        match $name {
            $($text => Some($number),)*
            _ if has_form($form, $name.as_bytes()) => Some($last),
            _ => None,
        }
    };
}

/// The number of the row that stands for a name.
#[tactic(auto, unfolding(crate::specs::Elements::number_of, crate::specs::Elements::elements))]
pub(crate) fn number_of(name: &str) -> Option<u8>
    ensures value { result ≡ number_of name.now }
    ensures bound { IfSome result (λ n. (1 ≤ n) × (n ≤ 32)) }
{
    numbers! {
        name;
        "family_name" => 1,
        "given_name" => 2,
        "birth_date" => 3,
        "issue_date" => 4,
        "expiry_date" => 5,
        "issuing_country" => 6,
        "issuing_authority" => 7,
        "document_number" => 8,
        "portrait" => 9,
        "driving_privileges" => 10,
        "un_distinguishing_sign" => 11,
        "administrative_number" => 12,
        "sex" => 13,
        "height" => 14,
        "weight" => 15,
        "eye_colour" => 16,
        "hair_colour" => 17,
        "birth_place" => 18,
        "resident_address" => 19,
        "portrait_capture_date" => 20,
        "age_in_years" => 21,
        "age_birth_year" => 22,
        "issuing_jurisdiction" => 23,
        "nationality" => 24,
        "resident_city" => 25,
        "resident_state" => 26,
        "resident_postal_code" => 27,
        "resident_country" => 28,
        "family_name_national_character" => 29,
        "given_name_national_character" => 30,
        "signature_usual_mark" => 31;
        b"age_over_00" => 32
    }
}

/// The row of a number.
fn row_at(number: u8) -> Row
    requires low { 1 ≤ number }
    requires high { number ≤ 32 }
    ensures { option_map row (element_at number) ≡ Some result }
{
    ROWS.at(usize::from(number - 1))
}

/// The row that stands for a name, none for a name without a row. `age_over_NN` with any two digits
/// is one row.
pub fn row_of(name: &str) -> Option<Row>
    ensures { result ≡ row_of name.now }
{
    match number_of(name) {
        Some(number) => Some(row_at(number)),
        None => None,
    }
}

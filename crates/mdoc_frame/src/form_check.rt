// Why a file is outside its form.
ghost use Rattle.std.specs.Prelude.{◌≡◌, Some};
ghost use Rattle.mdoc_frame.specs.CheckText.{check_text, item_fault_text, kind_text, row_fault_text};

use cbor_view::CborKind;
use doc_store::{ItemFault, StoreCheck};
use issue_spec::SpecCheck;
use mdl_table::RowFault;
use std::fmt;

/// Why a file is outside its form.
#[derive(Clone, Copy, Debug, PartialEq, Eq)]
pub enum FormCheck {
    /// The line of this number is outside the grammar of a line file.
    Line,
    /// The first fault of a store file: this check fails at the place.
    Store(StoreCheck),
    /// The first fault of a spec file: this check fails at the line, or of the whole file at 0.
    Spec(SpecCheck),
}

// The name of a fault of CBOR.
fn kind_name(kind: CborKind) -> &'static str
    ensures { result.now ≡ kind_text kind }
{
    match kind {
        CborKind::Truncated => "Truncated",
        CborKind::Reserved => "Reserved",
        CborKind::Chunked => "Chunked",
        CborKind::Indefinite => "Indefinite",
        CborKind::Length => "Length",
        CborKind::Deep => "Deep",
        CborKind::BadText => "BadText",
        CborKind::Trailing => "Trailing",
    }
}

// The name of a fault of a stored item.
fn item_fault_name(fault: ItemFault) -> &'static str
    ensures { result.now ≡ item_fault_text fault }
{
    match fault {
        ItemFault::NotTagged => "NotTagged",
        ItemFault::Cbor(_) => "Cbor",
        ItemFault::Doubled(_) => "Doubled",
        ItemFault::Field(_) => "Field",
    }
}

// The name of what is wrong with the value of an element.
fn row_fault_name(fault: RowFault) -> &'static str
    ensures { result.now ≡ row_fault_text fault }
{
    match fault {
        RowFault::KindWrong => "KindWrong",
        RowFault::DateWrong => "DateWrong",
        RowFault::RangeWrong => "RangeWrong",
    }
}

impl fmt::Display for FormCheck {
    ghost output = { λ check. Some (check_text check) };

    fn fmt<W: fmt::Write>(&self, f: &mut fmt::Formatter<W>) -> fmt::Result {
        match self {
            FormCheck::Line => write!(f, "Line"),
            FormCheck::Store(StoreCheck::Cbor(kind)) => write!(f, "Cbor {}", kind_name(*kind)),
            FormCheck::Store(StoreCheck::Field(key)) => write!(f, "Field {}", key.text()),
            FormCheck::Store(StoreCheck::Version) => write!(f, "Version"),
            FormCheck::Store(StoreCheck::Doubled) => write!(f, "Doubled"),
            FormCheck::Store(StoreCheck::Item(fault)) => {
                write!(f, "Item {}", item_fault_name(*fault))
            }
            FormCheck::Store(StoreCheck::Limit(limit, number)) => {
                write!(f, "Limit {} {number}", limit.text())
            }
            FormCheck::Spec(SpecCheck::Line) => write!(f, "Line"),
            FormCheck::Spec(SpecCheck::Row(fault)) => write!(f, "Row {}", row_fault_name(*fault)),
            FormCheck::Spec(SpecCheck::Missing(number)) => write!(f, "Missing {number}"),
            FormCheck::Spec(SpecCheck::Order) => write!(f, "Order"),
            FormCheck::Spec(SpecCheck::Limit(limit, number)) => {
                write!(f, "Limit {} {number}", limit.text())
            }
        }
    }
}

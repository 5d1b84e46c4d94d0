//! The checks of a spec file.

use mdl_table::RowFault;
use mdoc_outside::LimitName;

/// What is wrong with a spec file at the line that a fault names.
#[derive(Clone, Copy, Debug, PartialEq, Eq)]
pub enum SpecCheck {
    /// The line is outside the grammar; at the last line the file ends too early.
    Line,
    /// The value of the line's element doesn't fit its row (ISO/IEC 18013-5, 7.2.1).
    Row(RowFault),
    /// The licence has no element of the mandatory row of this number.
    Missing(u8),
    /// The time of the signature, the first and the last moment of the validity aren't in that order.
    Order,
    /// This limit is exceeded at the line, by this number.
    Limit(LimitName, u64),
}

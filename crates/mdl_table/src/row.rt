//! A row of the element table, as callers see it.

/// A row of the element table (ISO/IEC 18013-5, 7.2.1, table 5).
#[derive(Clone, Copy, Debug, PartialEq, Eq)]
pub struct Row {
    /// The number of the row, from 1 to 32.
    pub number: u8,
    /// Whether a licence has to have the element.
    pub mandatory: bool,
}

//! What is wrong with a value that doesn't fit its row.

/// Why a value doesn't fit the row of its element.
#[derive(Clone, Copy, Debug, PartialEq, Eq)]
pub enum RowFault {
    /// It is of another kind of CBOR, or has another tag.
    KindWrong,
    /// The text of a date or a moment doesn't read, or names a day or a second that doesn't exist.
    DateWrong,
    /// A length, a letter or a number is outside the range.
    RangeWrong,
}

// What the value of a pair of words is.
use crate::Role;

/// What the value that stands with a name is.
#[derive(Clone, Copy)]
pub enum PairKind {
    /// The name of a file of this role.
    File(Role),
    /// The name of a file of this role that counts as an empty one where it is absent.
    FileOrNone(Role),
    /// A number from the first to the second, in decimal digits.
    Number(u64, u64),
    /// A text.
    Text,
}

//! The keys by which entries of a map are asked for.

/// A key of a map, compared by its value, whatever the length of its head.
#[derive(Clone, Copy, Debug)]
pub enum Key<'a> {
    /// A number.
    Int(i64),
    /// A text.
    Text(&'a str),
}

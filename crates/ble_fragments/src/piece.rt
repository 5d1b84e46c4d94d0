// A piece of a message.

/// A piece of a message, without the leading byte of its fragment.
#[derive(Clone, Copy)]
pub struct Piece<'a> {
    /// The bytes, a slice of the message.
    pub bytes: &'a [u8],
    /// Whether it is the last piece.
    pub is_last: bool,
}

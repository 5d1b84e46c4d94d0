// What makes a fragment bad.

/// Why fragments can't be joined to messages (ISO/IEC 18013-5, 8.3.3.1.1).
#[derive(Clone, Copy, Debug, PartialEq, Eq)]
pub enum JoinFault {
    /// A data fragment without its leading byte.
    EmptyFragment,
    /// A leading byte, this one, that is neither 0 nor 1.
    BadLead(u8),
    /// A value of State, this one, that is neither 1 nor 2.
    BadState(u8),
    /// The message would have more than 65,536 fragments or more than 1,048,576 bytes.
    TooLong,
    /// Memory was wanting; the joiner is as before.
    Memory,
}

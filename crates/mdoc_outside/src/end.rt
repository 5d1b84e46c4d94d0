// The two ends of a session.

/// An end of a session (ISO/IEC 18013-5, 9.1.1).
#[derive(Clone, Copy, Debug, PartialEq, Eq)]
pub enum End {
    /// The holder's mdoc.
    Wallet,
    /// The mdoc reader.
    Reader,
}

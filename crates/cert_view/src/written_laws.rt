//! What holds of the bytes that are written. A law is the contract of a function that does nothing.

ghost use Rattle.cert_view.specs.WrittenReads.{IsReadAsWritten};

/// A certificate that is written for a draft and a signature is read, and each of its fields is that
/// of the draft (RFC 5280, 4.1).
pub fn written_is_read()
    ensures { IsReadAsWritten }
{}

//! What can be wrong with bytes that are to be a certificate.

/// The checks of a certificate, in the order in which they are made: the first that fails is reported.
#[derive(Clone, Copy, Debug, PartialEq, Eq)]
pub enum CertCheck {
    /// An element does not read, or bytes follow (X.690).
    Der,
    /// An element of another tag, or with another number of parts (RFC 5280, 4.1).
    Shape,
    /// The version is not that of X.509 version 3 (RFC 5280, 4.1.2.1).
    VersionNot3,
    /// An algorithm other than ECDSA with SHA-256 (RFC 5758, 3.2).
    Algorithm,
    /// A time that its text does not say, or that the calendar does not have (RFC 5280, 4.1.2.5).
    Time,
    /// The key is no uncompressed point of the curve P-256 (RFC 5480, 2).
    KeyKind,
    /// The signature is no pair of numbers below 2^256 (RFC 3279, 2.2.3).
    Signature,
    /// An extension out of its form, or the extended key usage out of its own or standing twice (RFC
    /// 5280, 4.2).
    Extension,
}

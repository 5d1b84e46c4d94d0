//! The numbers of the form of a store.

/// The parts of an issuer's signature (RFC 9052, section 4.2).
pub(crate) const SIGNATURE_PARTS: usize = 4;

/// The version of a store file.
pub(crate) const VERSION: u64 = 1;

/// The first number that no device key has.
pub(crate) const KEY_NUMBERS_END: u64 = 0x1_0000_0000;

/// The greatest number that says how a document is authenticated.
pub(crate) const MOST_AUTH: u64 = 1;

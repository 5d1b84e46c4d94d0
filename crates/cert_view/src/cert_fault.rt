//! The first fault of bytes that are no certificate.

use crate::cert_check::CertCheck;

/// The first check that fails, and the first place where it does.
#[derive(Clone, Copy, Debug, PartialEq, Eq)]
pub struct CertFault {
    /// The check.
    pub check: CertCheck,
    /// Where, as an offset in the bytes: the tag of the element at fault, and for bytes that follow
    /// an element the first of them.
    pub at: usize,
}

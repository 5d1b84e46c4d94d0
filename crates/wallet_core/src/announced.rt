//! What a wallet announces.

/// What a wallet announces to readers (ISO/IEC 18013-5, 8.2.2).
#[derive(Clone, Copy)]
pub struct Announced<'a> {
    /// The bytes of the engagement.
    pub engagement: &'a [u8],
    /// The message that selects the handover by NFC, if there is one.
    pub select: Option<&'a [u8]>,
}

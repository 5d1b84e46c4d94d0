// Why a text is no engagement's.

/// Why a text is not that of a QR code for device engagement (ISO/IEC 18013-5, 8.2.2.3).
#[derive(Clone, Copy, Debug, PartialEq, Eq)]
pub enum UriFault {
    /// It doesn't begin with `mdoc:`.
    Prefix,
    /// What follows is not the base64url text, without padding, of any bytes.
    Base64,
    /// Memory was wanting.
    Memory,
}

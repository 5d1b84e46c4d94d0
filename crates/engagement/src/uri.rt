// The text of a QR code.
ghost use Rattle.std.specs.Prelude.{◌≡◌, IfOk};
ghost use Rattle.engagement.specs.Uri.{ReadsUri, uri_of};

use crate::UriFault;
use base64::DecodeAllocError;
use base64::engine::general_purpose::URL_SAFE_NO_PAD;
use mdoc_outside::{Memory, Octets};
use std::alloc::Global;

/// What the text begins with.
const PREFIX: &[u8] = b"mdoc:";

/// The text of the QR code for an engagement's bytes (ISO/IEC 18013-5, 8.2.2.3): `mdoc:` and their
/// base64url text without padding (RFC 4648, section 5).
pub fn to_uri(alloc: Global, bytes: &[u8]) -> Result<Octets, Memory>
    ensures { IfOk result (λ text. text ≡ uri_of bytes.now) }
{
    let encoded = URL_SAFE_NO_PAD.encode(alloc, bytes)?;
    let mut text = PREFIX.to_vec(alloc)?;
    text.extend_from_slice(encoded.as_bytes())?;
    Ok(Octets::from_vec(text))
}

/// The bytes whose text this is.
pub fn from_uri(alloc: Global, text: &[u8]) -> Result<Octets, UriFault>
    ensures { ReadsUri text.now result }
{
    let Some(encoded) = text.strip_prefix(PREFIX) else {
        return Err(UriFault::Prefix);
    };
    match URL_SAFE_NO_PAD.decode(alloc, encoded) {
        Ok(bytes) => Ok(Octets::from_vec(bytes)),
        Err(DecodeAllocError::DecodeError(_)) => Err(UriFault::Base64),
        Err(DecodeAllocError::OutOfMemory) => Err(UriFault::Memory),
    }
}

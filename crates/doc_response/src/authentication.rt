//! The device's authentication by a MAC.

ghost use Rattle.std.specs.Prelude.{◌≡◌, IfOk};
ghost use Rattle.doc_response.specs.DeviceMac.{device_mac, mac_key};

use cose_msgs::{PROTECTED_HMAC_256, mac_bytes, write_transcript_bytes};
use hmac_hkdf::{hkdf32, hmac};
use mdoc_outside::Memory;
use sha2::{Digest, Sha256};
use std::alloc::Global;

/// The MAC key (EMacKey; ISO/IEC 18013-5, 9.1.3.5) of the secret on which the device's key and the reader's
/// ephemeral key agree, and of the bytes of the session transcript.
#[tactic(auto, unfolding(crate::specs::DeviceMac::mac_key))]
pub fn mac_key(alloc: Global, secret: &[u8; 32], transcript: &[u8]) -> Result<[u8; 32], Memory>
    ensures { IfOk result (λ key. key ≡ mac_key secret.now transcript.now) }
{
    let bytes = write_transcript_bytes(alloc, transcript)?;
    let salt = Sha256::digest(bytes.as_slice());
    Ok(hkdf32(secret, &salt, b"EMacKey"))
}

/// The code of a payload (9.1.3.5; RFC 9052, section 6.3) under the MAC key.
#[tactic(auto, unfolding(crate::specs::DeviceMac::device_mac, cose_msgs::specs::Written::hmac256, cbor_maps::specs::Writing::map_head, cbor_maps::specs::Labels::label_bytes))]
pub fn device_mac(alloc: Global, key: &[u8; 32], payload: &[u8]) -> Result<[u8; 32], Memory>
    ensures { IfOk result (λ tag. tag ≡ device_mac key.now payload.now) }
{
    let structure = mac_bytes(alloc, &PROTECTED_HMAC_256, payload)?;
    Ok(hmac(key, structure.as_slice()))
}

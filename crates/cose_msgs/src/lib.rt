//! COSE messages and keys (RFC 9052, RFC 9053, RFC 9360) as mobile documents use them: signatures of one
//! signer with ES256, codes of HMAC 256/256, and keys of the curve P-256.
//!
//! The one contract: an item is read exactly where it is such a message, else with the first check that
//! fails, what was written is read as it was given, and what is signed or authenticated determines its parts,
//! among them the transcript of a session (ISO/IEC 18013-5, 9.1.5.1) and the payloads that stand on it.
#![tactic(auto)]

mod chain;
mod cose_fault;
mod cose_key;
mod headers;
mod key_fault;
mod laws;
mod mac0;
mod message;
mod sharing;
mod sign1;
mod structures;
mod transcript;
mod written;

pub use cose_fault::CoseFault;
pub use cose_key::CoseKey;
pub use key_fault::KeyFault;
pub use laws::{
    context_is_told_apart, device_payload_determines_parts, mac_determines_parts,
    payloads_are_told_apart, reader_payload_determines_parts, signature_determines_parts,
    transcript_determines_parts, transcript_is_one_item,
};
pub use mac0::Mac0;
pub use sharing::types_are_send_and_sync;
pub use sign1::Sign1;
pub use structures::{mac_bytes, signed_bytes};
pub use transcript::{
    device_auth_bytes, reader_auth_bytes, write_transcript, write_transcript_bytes,
};
pub use written::{PROTECTED_ES256, PROTECTED_HMAC_256, write_key, write_mac0, write_sign1};

//! Keyed hashes with SHA-256: HMAC (RFC 2104), and HKDF over it (RFC 5869).
//!
//! The contract: each call gives the bytes that its standard's function on lists gives. No call
//! takes memory. Nothing is claimed of the time that a call takes.
#![tactic(auto)]

mod derivation;
mod mac;

pub use derivation::{hkdf, hkdf32};
pub use mac::hmac;

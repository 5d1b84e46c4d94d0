//! The keys of a session.

ghost use Rattle.std.specs.Prelude.{◌≡◌, IfOk};
ghost use Rattle.session_seal.specs.Keys.{derived, keys_by_salt, salt};

use aes_gcm::Key256;
use cose_msgs::write_transcript_bytes;
use hmac_hkdf::hkdf32;
use mdoc_outside::Memory;
use sha2::{Digest, Sha256};
use std::alloc::Global;
use std::marker::Model;

/// The keys of a session (ISO/IEC 18013-5, 9.1.1.5), each expanded once. They never leave the states of this crate.
#[derive(Drop)]
pub(crate) struct SessionKeys {
    /// SKDevice, with which the wallet seals.
    pub device: Key256,
    /// SKReader, with which the reader seals.
    pub reader: Key256,
}

impl Model for SessionKeys {
    ghost use Rattle.session_seal.specs.Keys.{Keys};

    ghost Value = { Keys };

    ghost view = { λ k. record { device = k.device; reader = k.reader } };
}

impl SessionKeys {
    /// The keys of a secret and a salt.
    pub fn new(secret: &[u8; 32], salt: &[u8; 32]) -> SessionKeys
        ensures { result ≡ keys_by_salt secret.now salt.now }
    {
        SessionKeys {
            device: Key256::new(&derived(b"SKDevice", secret, salt)),
            reader: Key256::new(&derived(b"SKReader", secret, salt)),
        }
    }
}

/// The salt of a session's keys: the digest of SessionTranscriptBytes, which are tag 24 over the transcript.
#[tactic(auto, unfolding(crate::specs::Keys::salt))]
pub(crate) fn salt(alloc: Global, transcript: &[u8]) -> Result<[u8; 32], Memory>
    ensures { IfOk result (λ s. s ≡ salt transcript.now) }
{
    let bytes = write_transcript_bytes(alloc, transcript)?;
    Ok(Sha256::digest(bytes.as_slice()))
}

/// 32 bytes for a use that has this name.
#[tactic(auto, unfolding(crate::specs::Keys::derived))]
fn derived(name: &[u8], secret: &[u8; 32], salt: &[u8; 32]) -> [u8; 32]
    ensures { result ≡ derived name.now secret.now salt.now }
{
    hkdf32(secret, salt, name)
}

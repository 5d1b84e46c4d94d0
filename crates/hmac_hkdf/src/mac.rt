//! HMAC with SHA-256 (RFC 2104).

ghost use Rattle.std.specs.Prelude.{◌≡◌, ◌≤◌, ◌++◌, length};
ghost use Rattle.hmac_hkdf.specs.Mac.{block_key, filled, hmac, padded};

use sha2::{Digest, Sha256};

const INNER_PAD: u8 = 0x36;

const OUTER_PAD: u8 = 0x5c;

/// The authentication code, of 32 bytes, of a message under a key of any length (RFC 2104,
/// section 2).
pub fn hmac(key: &[u8], message: &[u8]) -> [u8; 32]
    ensures { result ≡ hmac key.now message.now }
{
    hmac_of_parts(key, message, &[], &[])
}

// The code of a message that lies in three parts.
#[tactic(auto, unfolding(crate::specs::Mac::hmac))]
pub(crate) fn hmac_of_parts(key: &[u8], first: &[u8], second: &[u8], third: &[u8]) -> [u8; 32]
    ensures { result ≡ hmac key.now (first.now ++ second.now ++ third.now) }
{
    let block = block_key(key);
    let mut inner = Sha256::new();
    inner.update(&padded(&block, INNER_PAD)[..]);
    inner.update(first);
    inner.update(second);
    inner.update(third);
    let mut outer = Sha256::new();
    outer.update(&padded(&block, OUTER_PAD)[..]);
    outer.update(&inner.finalize()[..]);
    outer.finalize()
}

// The key as one block of the hash.
#[tactic(auto, unfolding(crate::specs::Mac::block_key))]
fn block_key(key: &[u8]) -> [u8; 64]
    ensures { result ≡ block_key key.now }
{
    if key.len() > 64 {
        filled(&Sha256::digest(key))
    } else {
        filled(key)
    }
}

fn filled(bytes: &[u8]) -> [u8; 64]
    requires { length bytes.now ≤ 64 }
    ensures { result ≡ filled bytes.now }
{
    let mut block = [0; 64];
    block[..bytes.len()].copy_from_slice(bytes);
    block
}

fn padded(block: &[u8; 64], pad: u8) -> [u8; 64]
    ensures { result ≡ padded block.now pad }
{
    let mut padded = *block;
    for byte in padded.iter_mut() {
        *byte ^= pad;
    }
    padded
}

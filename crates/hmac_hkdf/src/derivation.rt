//! HKDF with SHA-256 (RFC 5869).

ghost use Rattle.std.specs.Prelude.{◌≡◌, ◌+◌, ◌<◌, ◌≤◌, ◌++◌, length, take, drop};
ghost use Rattle.hmac_hkdf.specs.Derivation.{expansion_block, hkdf, hkdf_expand};

use crate::mac::{hmac, hmac_of_parts};

// The length of a digest of SHA-256.
const HASH_LEN: usize = 32;

/// Fills `out` with bytes derived from the input keying material `ikm` (RFC 5869, section 2).
/// A caller that has no salt passes an empty one.
#[tactic(auto, unfolding(crate::specs::Derivation::hkdf))]
pub fn hkdf(ikm: &[u8], salt: &[u8], info: &[u8], out: &mut [u8])
    requires { length out.old ≤ 8160 }
    ensures { out.new ≡ hkdf ikm.now salt.now info.now (length out.old) }
{
    expand(&hmac(salt, ikm), info, out);
}

/// The 32 bytes derived from the input keying material `ikm` (RFC 5869, section 2). A caller that
/// has no salt passes an empty one.
pub fn hkdf32(ikm: &[u8], salt: &[u8], info: &[u8]) -> [u8; 32]
    ensures { result ≡ hkdf ikm.now salt.now info.now 32 }
{
    let mut derived = [0; 32];
    hkdf(ikm, salt, info, &mut derived);
    derived
}

fn expand(prk: &[u8; HASH_LEN], info: &[u8], out: &mut [u8])
    requires { length out.old ≤ 8160 }
    ensures { out.new ≡ hkdf_expand prk.now info.now (length out.old) }
{
    let mut block = [0; HASH_LEN];
    for n in 0..out.len().div_ceil(HASH_LEN) {
        block = next_block(prk, info, n as u8, &block);
        put(out, n * HASH_LEN, &block);
    }
}

// T(n + 1), from T(n) where n is not 0.
#[tactic(auto, unfolding(crate::specs::Derivation::expansion_block))]
fn next_block(prk: &[u8; HASH_LEN], info: &[u8], n: u8, block: &[u8; HASH_LEN]) -> [u8; HASH_LEN]
    requires in_range { n < 255 }
    requires before { 0 < n → block.now ≡ expansion_block prk.now info.now n }
    ensures { result ≡ expansion_block prk.now info.now (n + 1) }
{
    let before: &[u8] = if n == 0 { &[] } else { block };
    hmac_of_parts(prk, before, info, &[n + 1])
}

// Writes the block at a place, as far as there is room.
fn put(out: &mut [u8], at: usize, block: &[u8; HASH_LEN])
    requires { at < length out.old }
    ensures { out.new
        ≡ take (length out.old) (take at out.old ++ block.now ++ drop (at + 32) out.old) }
{
    let size = HASH_LEN.min(out.len() - at);
    out[at..at + size].copy_from_slice(&block[..size]);
}

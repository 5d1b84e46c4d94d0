//! The hash of a ciphertext: its blocks, the last of them filled up, and its length (NIST SP
//! 800-38D, section 7.1).

ghost use Rattle.std.specs.Prelude.{◌≡◌, ◌-◌, ◌*◌, ◌^◌, ◌<◌, ◌≤◌, ◌++◌, length, replicate};
ghost use Rattle.aes_gcm.specs.Galois.{bits, block_at, ghash};
ghost use Rattle.aes_gcm.specs.Sealing.{hashed};

use crate::block::{BLOCK_LEN, Block, number_of};
use crate::galois::product;

pub(crate) fn hash_of(h: u128, cipher: &[u8]) -> u128
    requires { length cipher.now ≤ 2 ^ 24 }
    ensures { bits 128 result ≡ ghash (bits 128 h) (hashed cipher.now) }
{
    let mut sum = 0;
    for i in 0..cipher.len().div_ceil(BLOCK_LEN) {
        sum = product(sum ^ hashed_block(cipher, i), h);
    }
    product(sum ^ 8 * cipher.len() as u128, h)
}

// Block i of what is hashed of a ciphertext.
fn hashed_block(cipher: &[u8], i: usize) -> u128
    requires { 16 * i < length cipher.now }
    ensures { bits 128 result ≡ block_at (hashed cipher.now) i }
{
    let at = BLOCK_LEN * i;
    let size = BLOCK_LEN.min(cipher.len() - at);
    number_of(&filled(&cipher[at..at + size]))
}

fn filled(bytes: &[u8]) -> Block
    requires { length bytes.now ≤ 16 }
    ensures { result ≡ bytes.now ++ replicate (16 - length bytes.now) 0 }
{
    let mut block = [0; BLOCK_LEN];
    block[..bytes.len()].copy_from_slice(bytes);
    block
}

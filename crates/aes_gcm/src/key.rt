//! A key of 256 bits.

ghost use Rattle.std.specs.Prelude.{◌≡◌, ◌≤◌, length};
ghost use Rattle.aes_gcm.specs.Cipher.{aes, round_key};

use crate::cipher::{State, add_round_key, mix_columns, shift_rows, sub_bytes};
use crate::schedule::{EXPANDED_LEN, expanded_key};
use std::marker::Model;

/// A key of AES with 256 bits. Contracts see it as the list of its 32 bytes.
#[derive(Drop)]
pub struct Key256 {
    // The key's 32 bytes, and after them the rest of the expanded key.
    expanded: [u8; EXPANDED_LEN],
}

impl Model for Key256 {
    ghost use Rattle.std.specs.Prelude.{◌≡◌, List, ℕ, take};
    ghost use Rattle.aes_gcm.specs.Cipher.{expanded_key};

    ghost Value = { List ℕ };

    ghost view = { λ k. take 32 k.expanded };

    ghost invariant = { λ k. k.expanded ≡ expanded_key (take 32 k.expanded) };
}

impl Key256 {
    /// The key with these bytes.
    pub fn new(key: &[u8; 32]) -> Key256
        ensures { result ≡ key.now }
    {
        Key256 {
            expanded: expanded_key(key),
        }
    }

    /// One block of 16 bytes under AES (FIPS 197, section 5.1).
    #[tactic(auto, using(crate::proofs::CipherLemmas::round_steps))]
    pub fn block(&self, block: &[u8; 16]) -> [u8; 16]
        ensures { result ≡ aes self.now block.now }
    {
        let mut state = add_round_key(block, self.round_key(0));
        for round in 0..13 {
            let mixed = mix_columns(&shift_rows(&sub_bytes(&state)));
            state = add_round_key(&mixed, self.round_key(round + 1));
        }
        add_round_key(&shift_rows(&sub_bytes(&state)), self.round_key(14))
    }

    fn round_key(&self, round: usize) -> &[u8]
        requires { round ≤ 14 }
        ensures key { result.now ≡ round_key self.now round }
        ensures len { length result.now ≡ 16 }
    {
        &self.expanded[16 * round..16 * round + 16]
    }
}

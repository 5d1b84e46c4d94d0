//! Sealed text that is to be opened.

ghost use Rattle.std.specs.Prelude.{◌≡◌, ◌≤◌, ◌^◌, ℕ, List, IfOk, length};
ghost use Rattle.aes_gcm.specs.Sealing.{opened};

use aes_gcm::{Key256, NoMatch};
use mdoc_outside::{Memory, Octets};
use std::alloc::Global;
use std::marker::Model;

/// The length of a tag.
const TAG_LEN: usize = 16;

/// A copy of the sealed text of a message: a ciphertext and its tag. It is opened in place.
#[derive(Drop)]
pub(crate) struct SealedData {
    bytes: Vec<u8>,
}

impl Model for SealedData {
    ghost Value = { List ℕ };

    ghost view = { λ s. s.bytes.items };
}

impl SealedData {
    /// A copy.
    pub fn copy_of(alloc: Global, bytes: &[u8]) -> Result<SealedData, Memory>
        ensures { IfOk result (λ copy. copy ≡ bytes.now) }
    {
        let bytes = bytes.to_vec(alloc)?;
        Ok(SealedData { bytes })
    }

    /// The text, where the tag is the ciphertext's, in the buffer that held the ciphertext. It takes no memory.
    #[tactic(auto, using(crate::proofs::OpeningLemmas::opened_short))]
    pub fn open(self, key: &Key256, iv: &[u8; 12]) -> Option<Octets>
        requires { length self ≤ 2 ^ 24 }
        ensures { result ≡ opened key.now iv.now self }
    {
        let SealedData { mut bytes } = self;
        match bytes.as_slice().split_last_chunk::<TAG_LEN>() {
            Some((cipher, tag)) => {
                let size = cipher.len();
                let tag = *tag;
                bytes.truncate(size);
                match key.open_in_place(iv, bytes.as_mut_slice(), &tag) {
                    Ok(()) => Some(Octets::from_vec(bytes)),
                    Err(NoMatch) => None,
                }
            }
            None => None,
        }
    }
}

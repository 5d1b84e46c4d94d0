//! Sealing and opening in place (NIST SP 800-38D, section 7).

ghost use Rattle.std.specs.Prelude.{◌≡◌, ◌^◌, ◌≤◌, ◌↔◌, ◌++◌, length, IsOk, OnErr, OnOk};
ghost use Rattle.aes_gcm.specs.Sealing.{counter_block, encrypted, opened, sealed, tag_of};

use crate::block::{BLOCK_LEN, Block, block_of, number_of, xor_onto};
use crate::key::Key256;
use crate::no_match::NoMatch;
use crate::padding::hash_of;

type Iv = [u8; 12];

impl Key256 {
    /// Replaces `text` by its ciphertext, and gives the tag of 16 bytes (NIST SP 800-38D, section
    /// 7.1). An IV serves for one text under a key.
    pub fn seal_in_place(&self, iv: &[u8; 12], text: &mut [u8]) -> [u8; 16]
        requires { length text.old ≤ 2 ^ 24 }
        ensures text { text.new ≡ (sealed self.now iv.now text.old).0 }
        ensures tag { result ≡ (sealed self.now iv.now text.old).1 }
    {
        self.add_keystream(iv, text);
        self.tag_of(iv, text)
    }

    /// Replaces the ciphertext `text` by the text that was sealed (NIST SP 800-38D, section 7.2).
    /// Refuses a tag that differs from the ciphertext's in any byte.
    pub fn open_in_place(
        &self,
        iv: &[u8; 12],
        text: &mut [u8],
        tag: &[u8; 16],
    ) -> Result<(), NoMatch>
        requires { length text.old ≤ 2 ^ 24 }
        ensures matches { IsOk result ↔ (tag.now ≡ tag_of self.now iv.now text.old) }
        ensures ok { OnOk result (opened self.now iv.now (text.old ++ tag.now) ≡ Some text.new) }
        ensures err { OnErr result (opened self.now iv.now (text.old ++ tag.now) ≡ None) }
        ensures unchanged { OnErr result (text.new ≡ text.old) }
    {
        if self.tag_of(iv, text) != *tag {
            return Err(NoMatch);
        }
        self.add_keystream(iv, text);
        Ok(())
    }

    fn add_keystream(&self, iv: &Iv, text: &mut [u8])
        requires { length text.old ≤ 2 ^ 24 }
        ensures { text.new ≡ encrypted self.now iv.now text.old }
    {
        for i in 0..text.len().div_ceil(BLOCK_LEN) {
            let stream = self.block(&counter_block(iv, i as u32 + 2));
            let at = BLOCK_LEN * i;
            let size = BLOCK_LEN.min(text.len() - at);
            xor_onto(&mut text[at..at + size], &stream);
        }
    }

    fn tag_of(&self, iv: &Iv, cipher: &[u8]) -> Block
        requires { length cipher.now ≤ 2 ^ 24 }
        ensures { result ≡ tag_of self.now iv.now cipher.now }
    {
        let h = number_of(&self.block(&[0; BLOCK_LEN]));
        let mut tag = block_of(hash_of(h, cipher));
        xor_onto(&mut tag, &self.block(&counter_block(iv, 1)));
        tag
    }
}

fn counter_block(iv: &Iv, n: u32) -> Block
    ensures { result ≡ counter_block iv.now n }
{
    let mut block = [0; BLOCK_LEN];
    block[..12].copy_from_slice(iv);
    block[12..].copy_from_slice(&n.to_be_bytes());
    block
}

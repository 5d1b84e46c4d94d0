//! A block of 16 bytes: as a number, whose highest bit is the block's first, and XORed onto bytes.

ghost use Rattle.std.specs.Prelude.{◌≡◌, ◌≤◌, length};
ghost use Rattle.aes_gcm.specs.Bytes.{xored};
ghost use Rattle.aes_gcm.specs.Galois.{bits, bits_of, bytes_of};

pub(crate) const BLOCK_LEN: usize = 16;

pub(crate) type Block = [u8; BLOCK_LEN];

pub(crate) fn number_of(block: &Block) -> u128
    ensures { bits 128 result ≡ bits_of block.now }
{
    u128::from_be_bytes(*block)
}

pub(crate) fn block_of(number: u128) -> Block
    ensures { result ≡ bytes_of 16 (bits 128 number) }
{
    number.to_be_bytes()
}

// XORs as many bytes of the block onto bytes as there are.
pub(crate) fn xor_onto(bytes: &mut [u8], block: &Block)
    requires { length bytes.old ≤ 16 }
    ensures { bytes.new ≡ xored bytes.old block.now }
{
    for (k, byte) in bytes.iter_mut().enumerate() {
        *byte ^= block[k];
    }
}

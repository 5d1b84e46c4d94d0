//! The product of two blocks in the field of GCM (NIST SP 800-38D, section 6.3). The first bit of a
//! block is the highest bit of its number.

ghost use Rattle.std.specs.Prelude.{◌≡◌, ◌<◌, ◌==◌, if◌then◌else◌};
ghost use Rattle.std.specs.Int.{bit_at};
ghost use Rattle.aes_gcm.specs.Bytes.{xored};
ghost use Rattle.aes_gcm.specs.Galois.{bits, product, times_x};

// The bits 11100001 and 120 zeros.
const REDUCTION: u128 = 0xe1000000000000000000000000000000;

pub(crate) fn product(x: u128, y: u128) -> u128
    ensures { bits 128 result ≡ product (bits 128 x) (bits 128 y) }
{
    let mut sum = 0;
    let mut multiple = y;
    let mut left = 128;
    while left > 0 {
        left -= 1;
        sum = plus_if_set(sum, multiple, x, left);
        multiple = times_x(multiple);
    }
    sum
}

// The sum, with the multiple added where the bit of x at a place is 1.
#[tactic(auto, using(crate::proofs::BitsLemmas::bits_xor))]
fn plus_if_set(sum: u128, multiple: u128, x: u128, place: u32) -> u128
    requires { place < 128 }
    ensures { bits 128 result
        ≡ (if bit_at x place == 1 then xored (bits 128 sum) (bits 128 multiple) else bits 128 sum) }
{
    if (x >> place) % 2 == 1 {
        sum ^ multiple
    } else {
        sum
    }
}

fn times_x(v: u128) -> u128
    ensures { bits 128 result ≡ times_x (bits 128 v) }
{
    if v % 2 == 1 {
        v >> 1 ^ REDUCTION
    } else {
        v >> 1
    }
}

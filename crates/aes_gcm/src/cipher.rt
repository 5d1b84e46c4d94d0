//! The steps of AES on a state of 16 bytes (FIPS 197, section 5.1).

ghost use Rattle.std.specs.Prelude.{◌≡◌, ◌∷◌, [], length};
ghost use Rattle.aes_gcm.specs.Cipher.{add_round_key, mix_columns, mixed, shift_rows, sub_bytes};
ghost use Rattle.aes_gcm.specs.Field.{xtimes};

use crate::tables::sbox;

pub(crate) type State = [u8; 16];

#[tactic(auto, unfolding(crate::specs::Cipher::sub_bytes))]
pub(crate) fn sub_bytes(s: &State) -> State
    ensures { result ≡ sub_bytes s.now }
{
    [
        sbox(s[0]),
        sbox(s[1]),
        sbox(s[2]),
        sbox(s[3]),
        sbox(s[4]),
        sbox(s[5]),
        sbox(s[6]),
        sbox(s[7]),
        sbox(s[8]),
        sbox(s[9]),
        sbox(s[10]),
        sbox(s[11]),
        sbox(s[12]),
        sbox(s[13]),
        sbox(s[14]),
        sbox(s[15]),
    ]
}

#[tactic(auto, unfolding(crate::specs::Cipher::shift_rows))]
pub(crate) fn shift_rows(s: &State) -> State
    ensures { result ≡ shift_rows s.now }
{
    [
        s[0], s[5], s[10], s[15], s[4], s[9], s[14], s[3], s[8], s[13], s[2], s[7], s[12], s[1],
        s[6], s[11],
    ]
}

#[tactic(auto, unfolding(crate::specs::Field::xtimes))]
fn xtimes(byte: u8) -> u8
    ensures { result ≡ xtimes byte }
{
    if byte < 0x80 {
        byte << 1
    } else {
        byte << 1 ^ 0x1b
    }
}

fn mixed(b0: u8, b1: u8, b2: u8, b3: u8) -> u8
    ensures { result ≡ mixed b0 b1 b2 b3 }
{
    xtimes(b0) ^ (b1 ^ xtimes(b1)) ^ b2 ^ b3
}

fn mixed_column(b0: u8, b1: u8, b2: u8, b3: u8) -> [u8; 4]
    ensures { result ≡ mixed b0 b1 b2 b3 ∷ mixed b1 b2 b3 b0
        ∷ mixed b2 b3 b0 b1 ∷ mixed b3 b0 b1 b2 ∷ [] }
{
    [
        mixed(b0, b1, b2, b3),
        mixed(b1, b2, b3, b0),
        mixed(b2, b3, b0, b1),
        mixed(b3, b0, b1, b2),
    ]
}

#[tactic(auto, unfolding(crate::specs::Cipher::mix_columns))]
pub(crate) fn mix_columns(s: &State) -> State
    ensures { result ≡ mix_columns s.now }
{
    let [a0, a1, a2, a3] = mixed_column(s[0], s[1], s[2], s[3]);
    let [b0, b1, b2, b3] = mixed_column(s[4], s[5], s[6], s[7]);
    let [c0, c1, c2, c3] = mixed_column(s[8], s[9], s[10], s[11]);
    let [d0, d1, d2, d3] = mixed_column(s[12], s[13], s[14], s[15]);
    [
        a0, a1, a2, a3, b0, b1, b2, b3, c0, c1, c2, c3, d0, d1, d2, d3,
    ]
}

#[tactic(auto, unfolding(crate::specs::Cipher::add_round_key))]
pub(crate) fn add_round_key(s: &State, k: &[u8]) -> State
    requires { length k.now ≡ 16 }
    ensures { result ≡ add_round_key s.now k.now }
{
    [
        s[0] ^ k[0],
        s[1] ^ k[1],
        s[2] ^ k[2],
        s[3] ^ k[3],
        s[4] ^ k[4],
        s[5] ^ k[5],
        s[6] ^ k[6],
        s[7] ^ k[7],
        s[8] ^ k[8],
        s[9] ^ k[9],
        s[10] ^ k[10],
        s[11] ^ k[11],
        s[12] ^ k[12],
        s[13] ^ k[13],
        s[14] ^ k[14],
        s[15] ^ k[15],
    ]
}

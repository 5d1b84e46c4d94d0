//! The key expansion of AES (FIPS 197, section 5.2).

ghost use Rattle.std.specs.Prelude.{◌≡◌, ◌+◌, ◌*◌, ◌<◌, ◌≤◌, length, take};
ghost use Rattle.aes_gcm.specs.Cipher.{changed_word, expanded_key, next_word, rot_word, sub_word, word_at, xored_words};

use crate::tables::{power_of_x, sbox};

// The key's eight words and the 52 that follow them, four bytes each.
pub(crate) const EXPANDED_LEN: usize = 240;

type Word = [u8; 4];

pub(crate) fn expanded_key(key: &[u8; 32]) -> [u8; EXPANDED_LEN]
    ensures { result ≡ expanded_key key.now }
{
    let mut words = [0; EXPANDED_LEN];
    words[..32].copy_from_slice(key);
    expand(&mut words);
    words
}

// Writes the words after the key's eight.
fn expand(words: &mut [u8])
    requires { length words.old ≡ EXPANDED_LEN }
    ensures { words.new ≡ expanded_key (take 32 words.old) }
{
    for i in 8..60 {
        let word = next_word(words, i);
        words[4 * i..4 * i + 4].copy_from_slice(&word);
    }
}

#[tactic(auto, unfolding(crate::specs::Cipher::next_word))]
fn next_word(words: &[u8], i: usize) -> Word
    requires len { length words.now ≡ EXPANDED_LEN }
    requires low { 8 ≤ i }
    requires high { i < 60 }
    ensures { result ≡ next_word words.now i }
{
    let before = word_at(words, i - 1);
    xored_words(&word_at(words, i - 8), &changed_word(&before, i))
}

#[tactic(auto, unfolding(crate::specs::Cipher::changed_word))]
fn changed_word(word: &Word, i: usize) -> Word
    requires low { 8 ≤ i }
    requires high { i < 60 }
    ensures { result ≡ changed_word word.now i }
{
    if i % 8 == 0 {
        let constant = [power_of_x(i / 8 - 1), 0, 0, 0];
        xored_words(&sub_word(&rot_word(word)), &constant)
    } else if i % 8 == 4 {
        sub_word(word)
    } else {
        *word
    }
}

fn word_at(words: &[u8], i: usize) -> Word
    requires { 4 * i + 4 ≤ length words.now }
    ensures { result ≡ word_at words.now i }
{
    let at = 4 * i;
    [words[at], words[at + 1], words[at + 2], words[at + 3]]
}

fn xored_words(u: &Word, v: &Word) -> Word
    ensures { result ≡ xored_words u.now v.now }
{
    [u[0] ^ v[0], u[1] ^ v[1], u[2] ^ v[2], u[3] ^ v[3]]
}

fn rot_word(w: &Word) -> Word
    ensures { result ≡ rot_word w.now }
{
    [w[1], w[2], w[3], w[0]]
}

fn sub_word(w: &Word) -> Word
    ensures { result ≡ sub_word w.now }
{
    [sbox(w[0]), sbox(w[1]), sbox(w[2]), sbox(w[3])]
}

// The words of a line.
ghost use Rattle.std.specs.Prelude.{◌≡◌, ◌<◌, [], ◌∷◌, length, MatchOption};
ghost use Rattle.std.specs.Iterator.{YieldsFirstBy, item_count};
ghost use Rattle.mdoc_outside.specs.Lines.{words};
ghost use Rattle.mdoc_outside.specs.Words.{words_left};

use crate::lines::{after_spaces, split_once};

/// The words of a line that are left, in order.
#[derive(Clone, Copy)]
pub struct Words<'a> {
    pub(crate) rest: &'a [u8],
}

// The first word and what stands after it.
#[tactic(auto, using(crate::proofs::WordSteps::word_steps))]
fn first_word(bytes: &[u8]) -> Option<(&[u8], &[u8])>
    ensures { MatchOption result (words bytes.now ≡ [])
        (λ found. words bytes.now ≡ found.0.now ∷ words found.1.now) }
{
    let bytes = after_spaces(bytes);
    if bytes.is_empty() {
        return None;
    }
    match split_once(bytes, b' ') {
        Some(found) => Some(found),
        None => Some((bytes, &[])),
    }
}

impl<'a> Iterator for Words<'a> {
    type Item = &'a [u8];

    ghost next_gives = { YieldsFirstBy (λ word. word.now) words_left };

    ghost remaining = { item_count words_left };

    fn next(&mut self) -> Option<&'a [u8]> {
        let (word, rest) = first_word(self.rest)?;
        self.rest = rest;
        Some(word)
    }
}

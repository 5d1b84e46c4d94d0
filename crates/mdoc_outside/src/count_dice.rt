// A dice in memory that counts.
ghost use Rattle.std.specs.Prelude.{◌≡◌};

use crate::{Dice, DiceFault};

/// Words that count up from a first one, and from 0 after the last of 64 bits. It never fails and
/// wants no memory.
#[derive(Clone, Copy, Debug)]
pub struct CountDice {
    word: u64,
}

impl CountDice {
    ghost use Rattle.mdoc_outside.specs.CountDice.{next_word};

    /// A dice whose first word is this one.
    pub fn new(first: u64) -> CountDice
        ensures { next_word result ≡ first }
    {
        CountDice { word: first }
    }
}

impl Dice for CountDice {
    ghost use Rattle.mdoc_outside.specs.CountDice.{CountDeals};

    ghost gives = { CountDeals };

    ghost faults = { λ _. 0 };

    fn next(&mut self) -> Result<u64, DiceFault> {
        let word = self.word;
        self.word = word.wrapping_add(1);
        Ok(word)
    }
}

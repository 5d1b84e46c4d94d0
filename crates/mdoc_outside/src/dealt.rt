// A dice that keeps the words that it dealt.
ghost use Rattle.std.specs.Prelude.{◌≡◌, []};

use crate::{Dice, DiceFault};
use std::alloc::Global;

/// A dice that asks the one it wraps, and keeps each word that this one dealt.
#[derive(Drop)]
pub struct Dealt<R> {
    dice: R,
    words: Vec<u64>,
}

impl<R> Dealt<R> {
    ghost use Rattle.mdoc_outside.specs.Dealt.{dealt, inner};

    /// A dice round another one, with no words yet.
    pub fn new(alloc: Global, dice: R) -> Dealt<R>
        ensures dealt { dealt result ≡ [] }
        ensures dice { inner result ≡ dice }
    {
        Dealt {
            dice,
            words: Vec::new(alloc),
        }
    }

    /// The words dealt so far.
    pub fn dealt(&self) -> &[u64]
        ensures { result.now ≡ dealt self.now }
    {
        &self.words
    }
}

impl<R: Dice> Dice for Dealt<R> {
    ghost use Rattle.mdoc_outside.specs.Dealt.{inner, Keeps};
    ghost use Rattle.mdoc_outside.specs.Faults.{HasCause};
    ghost use Rattle.mdoc_outside.specs.GaveWords.{GaveWords};
    ghost use Rattle.mdoc_outside.specs.declared.dice_fault.DiceFault.TheVariants.{Failed, Memory};

    ghost gives = { Keeps R.gives };

    ghost faults = { λ d. R.faults (inner d) };

    // The trait's clauses, and that the dice that was wrapped dealt the word.
    #[tactic(auto, using(crate::proofs::GaveWordsLemmas::word_exits))]
    fn next(&mut self) -> Result<u64, DiceFault>
        ensures gives { Keeps R.gives self.old result self.new }
        ensures cause { HasCause Failed Memory (R.faults (inner self.old)) (R.faults (inner self.new)) result }
        ensures gave { GaveWords R.gives R.faults self.old self.new }
    {
        self.words.reserve(1)?;
        match self.dice.next() {
            Ok(word) => {
                self.words.push_reserved(word);
                Ok(word)
            }
            Err(DiceFault::Failed) => Err(DiceFault::Failed),
            Err(DiceFault::Memory) => Err(DiceFault::Memory),
        }
    }
}

// A dice in memory that deals a list, some of whose calls fail.
ghost use Rattle.std.specs.Prelude.{◌≡◌};

use crate::call_plan::CallPlan;
use crate::{Dice, DiceFault};

/// Words in memory, dealt in order. The calls with the given numbers, from 0, fail, and so does
/// each call after the last word. It tells its words left, and wants no memory.
#[derive(Drop)]
pub struct ListDice {
    words: Vec<u64>,
    dealt: usize,
    plan: CallPlan,
}

impl ListDice {
    ghost use Rattle.mdoc_outside.specs.ListDice.{left, failing, call, faulted};

    /// A dice with these words, and the numbers of the calls that fail.
    pub fn new(words: Vec<u64>, fails: Vec<u64>) -> ListDice
        ensures left { left result ≡ words.items }
        ensures failing { failing result ≡ fails.items }
        ensures calls { call result ≡ 0 }
        ensures faults { faulted result ≡ 0 }
    {
        ListDice {
            words,
            dealt: 0,
            plan: CallPlan::new(fails),
        }
    }
}

impl Dice for ListDice {
    ghost use Rattle.mdoc_outside.specs.ListDice.{ListDeals, faulted};

    ghost gives = { ListDeals };

    ghost faults = { λ d. faulted d };

    fn next(&mut self) -> Result<u64, DiceFault> {
        if self.plan.fails_now() {
            return Err(DiceFault::Failed);
        }
        match self.words.get(self.dealt) {
            Some(word) => {
                self.dealt += 1;
                Ok(*word)
            }
            None => {
                self.plan.count_fault();
                Err(DiceFault::Failed)
            }
        }
    }
}

// A source of random words.
ghost use Rattle.std.specs.Prelude.{ℕ, Result};
ghost use Rattle.mdoc_outside.specs.Faults.{HasCause};
ghost use Rattle.mdoc_outside.specs.declared.dice_fault.DiceFault.{DiceFault};
ghost use Rattle.mdoc_outside.specs.declared.dice_fault.DiceFault.TheVariants.{Failed, Memory};

use crate::DiceFault;

/// A source of words of 64 bits. Nothing says that they are random.
pub trait Dice {
    /// When a dice in the first state may give this answer, and be in the second state then.
    ghost gives: { Self → Result ℕ DiceFault → Self → Type 0 };

    /// How often it has failed, a number that never falls.
    ghost faults: { Self → ℕ };

    /// Deals the next word.
    fn next(&mut self) -> Result<u64, DiceFault>
        ensures gives { gives self.old result self.new }
        ensures cause { HasCause Failed Memory (faults self.old) (faults self.new) result };
}

//! Counts of heads.

ghost use Rattle.std.specs.Prelude.{◌≡◌, IfOk};

use mdoc_outside::Memory;

/// A count as a head has it; one that no head has is answered by want of memory.
pub fn count_of(count: usize) -> Result<u32, Memory>
    ensures { IfOk result (λ small. small ≡ count) }
{
    u32::try_from(count).map_err(|_| Memory)
}

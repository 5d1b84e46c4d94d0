//! Memory that is set aside, and what is kept of a round.

ghost use Rattle.std.specs.Prelude.{◌≡◌, ◌++◌, [], OnErr, OnOk};

use mdoc_outside::Memory;
use std::alloc::Global;
use wallet_answer::append_released;
use wallet_model::ReleasedAt;

/// The room that is there before a message is answered, in bytes.
const ROOM: usize = 1_048_576;

/// Whether there is that room. It is free again after the call.
pub(crate) fn check_memory(alloc: Global) -> Result<(), Memory> {
    let room: Vec<u8> = Vec::with_capacity(alloc, ROOM)?;
    drop(room);
    Ok(())
}

/// Keeps further places. Without any it takes no memory.
pub(crate) fn keep_places(kept: &mut Vec<ReleasedAt>, more: Vec<ReleasedAt>) -> Result<(), Memory>
    ensures added { OnOk result (kept.new.items ≡ kept.old.items ++ more.items) }
    ensures some { OnErr result (¬ (more.items ≡ [])) }
{
    if more.is_empty() {
        return Ok(());
    }
    append_released(kept, more)
}

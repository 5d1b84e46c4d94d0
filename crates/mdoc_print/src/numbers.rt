//! Numbers in printed lines.

ghost use Rattle.std.specs.Prelude.{◌≡◌, ◌++◌, OnOk};
ghost use Rattle.std.specs.Fmt.{decimal};

use mdoc_outside::Memory;
use std::alloc::Global;

/// Appends a number to a line, in decimal digits.
pub fn put_number(line: &mut Vec<u8>, alloc: Global, number: u64) -> Result<(), Memory>
    ensures { OnOk result (line.new.items ≡ line.old.items ++ decimal number) }
{
    let text = format!(in alloc; "{number}")?;
    line.extend_from_slice(text.as_bytes())?;
    Ok(())
}

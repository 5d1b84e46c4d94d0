//! Names in printed lines.

ghost use Rattle.std.specs.Prelude.{◌≡◌, ◌++◌, OnOk};
ghost use Rattle.mdoc_print.specs.Printed.{byte_text, is_plain_byte, name_text};

use mdoc_outside::Memory;
use std::alloc::Global;

/// Whether a byte of a name is printed as it is.
fn is_plain_byte(byte: u8) -> bool
    ensures { result ≡ is_plain_byte byte }
{
    (0x21..=0x7e).contains(&byte) && byte != b'%'
}

/// Appends a byte of a name.
fn put_byte(line: &mut Vec<u8>, alloc: Global, byte: u8) -> Result<(), Memory>
    ensures { OnOk result (line.new.items ≡ line.old.items ++ byte_text byte) }
{
    if is_plain_byte(byte) {
        line.push(byte)?;
        return Ok(());
    }
    line.push(b'%')?;
    line.extend_from_slice(hex::encode(alloc, &[byte])?.as_bytes())?;
    Ok(())
}

/// Appends a name to a line: its bytes 21 to 7e other than `%` as they are, each other byte as `%` and two lower-case
/// hexadecimal digits. An empty name is `%`.
pub fn put_name(line: &mut Vec<u8>, alloc: Global, name: &[u8]) -> Result<(), Memory>
    ensures { OnOk result (line.new.items ≡ line.old.items ++ name_text name.now) }
{
    if name.is_empty() {
        line.push(b'%')?;
    }
    for byte in name {
        put_byte(line, alloc, *byte)?;
    }
    Ok(())
}

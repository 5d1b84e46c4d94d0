//! The walk over one item: where it ends, or its first fault. It goes down one level of nesting at a
//! time, and no deeper than it may.

ghost use Rattle.std.specs.Prelude.{◌≡◌, ◌-◌, IsTrue, OnOk, min};
ghost use Rattle.cbor_view.specs.Opening.{begins};
ghost use Rattle.cbor_view.specs.Reading.{Gives, string_at, text_at, items_at, pairs_at, item_at, behind, inner, levels_inside, levels_left, past};
ghost use Rattle.cbor_view.specs.Tree.{levels, levels_of_all, levels_of_pairs};

use crate::cbor_kind::CborKind;
use crate::heads::{Head, read_head};
use crate::stop::Stop;
use crate::view::MOST_LEVELS;

/// The first length and the first count that is too large.
pub(crate) const LENGTHS_END: u64 = 0x1_0000_0000;

/// What follows the item at the front, which may have so many levels.
pub(crate) fn skip(bytes: &[u8], most: u32) -> Result<&[u8], Stop>
    ensures { Gives (λ x. x.now) result (past (item_at most bytes.now)) }
{
    let mut fewest = most;
    walk(bytes, most, &mut fewest)
}

/// What follows the item that begins there. It was read before: a text isn't read as UTF-8 again.
pub(crate) fn skip_again(bytes: &[u8]) -> Result<&[u8], Stop>
    requires { IsTrue (begins bytes.now) }
    ensures { Gives (λ x. x.now) result (past (item_at 32 bytes.now)) }
{
    let mut fewest = MOST_LEVELS;
    match read_head(bytes) {
        Ok((Head::Text(len), rest)) => skip_string(bytes.len(), len, rest),
        Ok((head, rest)) => walk_after(bytes.len(), head, rest, MOST_LEVELS, &mut fewest),
        Err(kind) => Err(Stop {
            kind,
            left: bytes.len(),
        }),
    }
}

/// What follows the item at the front, which may have so many levels, and the fewest levels that
/// were left within it.
#[cycle(walk)]
pub(crate) fn walk<'a>(bytes: &'a [u8], most: u32, fewest: &mut u32) -> Result<&'a [u8], Stop>
    ensures rest { Gives (λ x. x.now) result (past (item_at most bytes.now)) }
    ensures left { OnOk result (fewest.new ≡ levels_left levels most fewest.old (item_at most bytes.now)) }
{
    match read_head(bytes) {
        Ok((head, rest)) => walk_after(bytes.len(), head, rest, most, fewest),
        Err(kind) => Err(Stop {
            kind,
            left: bytes.len(),
        }),
    }
}

/// The same of the item whose head was read, `left` bytes from the end.
#[cycle(walk)]
fn walk_after<'a>(
    left: usize,
    head: Head,
    rest: &'a [u8],
    most: u32,
    fewest: &mut u32,
) -> Result<&'a [u8], Stop>
    ensures rest { Gives (λ x. x.now) result (past (behind (inner most) left head rest.entry.now)) }
    ensures left { OnOk result (fewest.new ≡ levels_left levels most fewest.old (behind (inner most) left head rest.entry.now)) }
{
    match head {
        Head::Bytes(len) => skip_string(left, len, rest),
        Head::Text(len) => skip_text(left, len, rest),
        Head::Array(count) => {
            let inside = enter(left, count, most, fewest)?;
            walk_items(rest, count, inside, fewest)
        }
        Head::Map(count) => {
            let inside = enter(left, count, most, fewest)?;
            walk_pairs(rest, count, inside, fewest)
        }
        Head::Tag(_) => {
            let inside = enter(left, 1, most, fewest)?;
            walk(rest, inside, fewest)
        }
        Head::Unsigned(_) | Head::Negative(_) | Head::Simple(_) | Head::Float { .. } => Ok(rest),
    }
}

/// The levels that the parts of an array, a map or a tag may have.
fn enter(left: usize, count: u64, most: u32, fewest: &mut u32) -> Result<u32, Stop>
    ensures inside { result ≡ levels_inside left count most }
    ensures left { OnOk result (fewest.new ≡ min fewest.old (most - 1)) }
{
    if count >= LENGTHS_END {
        return Err(Stop {
            kind: CborKind::Length,
            left,
        });
    }
    if most == 0 {
        return Err(Stop {
            kind: CborKind::Deep,
            left,
        });
    }
    let inside = most - 1;
    *fewest = inside.min(*fewest);
    Ok(inside)
}

/// What follows so many items, and the fewest levels that were left within them.
#[cycle(walk)]
fn walk_items<'a>(
    bytes: &'a [u8],
    count: u64,
    most: u32,
    fewest: &mut u32,
) -> Result<&'a [u8], Stop>
    ensures rest { Gives (λ x. x.now) result (past (items_at (item_at most) count bytes.now)) }
    ensures left { OnOk result (fewest.new ≡ levels_left levels_of_all most fewest.old (items_at (item_at most) count bytes.now)) }
{
    let mut rest = bytes;
    let mut left = count;
    while left > 0 {
        rest = walk(rest, most, fewest)?;
        left -= 1;
    }
    Ok(rest)
}

/// The same of so many pairs of items.
#[cycle(walk)]
fn walk_pairs<'a>(
    bytes: &'a [u8],
    count: u64,
    most: u32,
    fewest: &mut u32,
) -> Result<&'a [u8], Stop>
    ensures rest { Gives (λ x. x.now) result (past (pairs_at (item_at most) count bytes.now)) }
    ensures left { OnOk result (fewest.new ≡ levels_left levels_of_pairs most fewest.old (pairs_at (item_at most) count bytes.now)) }
{
    let mut rest = bytes;
    let mut left = count;
    while left > 0 {
        let value = walk(rest, most, fewest)?;
        rest = walk(value, most, fewest)?;
        left -= 1;
    }
    Ok(rest)
}

fn skip_string(left: usize, len: u64, rest: &[u8]) -> Result<&[u8], Stop>
    ensures { Gives (λ x. x.now) result (past (string_at left len rest.now)) }
{
    let (_, rest) = split_string(left, len, rest)?;
    Ok(rest)
}

fn skip_text(left: usize, len: u64, rest: &[u8]) -> Result<&[u8], Stop>
    ensures { Gives (λ x. x.now) result (past (text_at left len rest.now)) }
{
    let (text, rest) = split_string(left, len, rest)?;
    match str::from_utf8(text) {
        Ok(_) => Ok(rest),
        Err(_) => Err(Stop {
            kind: CborKind::BadText,
            left,
        }),
    }
}

/// A string of so many bytes, and what follows it.
fn split_string(left: usize, len: u64, rest: &[u8]) -> Result<(&[u8], &[u8]), Stop>
    ensures { Gives (λ x. (x.0.now, x.1.now)) result (string_at left len rest.now) }
{
    if len > rest.len() as u64 {
        return Err(Stop {
            kind: CborKind::Truncated,
            left,
        });
    }
    if len >= LENGTHS_END {
        return Err(Stop {
            kind: CborKind::Length,
            left,
        });
    }
    Ok(rest.split_at(len as usize))
}

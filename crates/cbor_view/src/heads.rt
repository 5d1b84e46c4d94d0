//! Heads of items (RFC 8949, section 3).

ghost use Rattle.std.specs.Prelude.{◌≡◌};
ghost use Rattle.std.specs.Int.{w8, w16, w32, w64};
ghost use Rattle.cbor_view.specs.Reading.{Gives, number_at, argument_at, endless, simple_or_float, typed, kind_of, head_with, head_at};

use crate::cbor_kind::CborKind;
use byteorder::{BigEndian, ByteOrder};

/// What the head of an item says: the major type and its argument.
#[derive(Clone, Copy, Debug, PartialEq, Eq)]
pub(crate) enum Head {
    Unsigned(u64),
    Negative(u64),
    Bytes(u64),
    Text(u64),
    Array(u64),
    Map(u64),
    Tag(u64),
    Simple(u64),
    Float { width: u64, bits: u64 },
}

/// The head at the front, and the bytes after it.
#[tactic(auto, unfolding(crate::specs::Reading::head_at))]
pub(crate) fn read_head(bytes: &[u8]) -> Result<(Head, &[u8]), CborKind>
    ensures { Gives (λ x. (x.0, x.1.now)) result (head_at bytes.now) }
{
    match bytes {
        [] => Err(CborKind::Truncated),
        [first, rest @ ..] => read_rest(*first / 32, *first % 32, rest),
    }
}

fn read_rest(major: u8, info: u8, rest: &[u8]) -> Result<(Head, &[u8]), CborKind>
    ensures { Gives (λ x. (x.0, x.1.now)) result (head_with major info rest.now) }
{
    if info == 31 {
        return Err(kind_of_endless(major));
    }
    let (argument, rest) = read_argument(info, rest)?;
    let head = head_of(major, info, argument)?;
    Ok((head, rest))
}

/// The argument by the additional information, which is not 31.
fn read_argument(info: u8, rest: &[u8]) -> Result<(u64, &[u8]), CborKind>
    ensures { Gives (λ x. (x.0, x.1.now)) result (argument_at info rest.now) }
{
    match info {
        0..=23 => Ok((u64::from(info), rest)),
        24 => read_one(rest),
        25 => read_two(rest),
        26 => read_four(rest),
        27 => read_eight(rest),
        _ => Err(CborKind::Reserved),
    }
}

fn read_one(bytes: &[u8]) -> Result<(u64, &[u8]), CborKind>
    ensures { Gives (λ x. (x.0, x.1.now)) result (number_at w8 bytes.now) }
{
    match bytes {
        [] => Err(CborKind::Truncated),
        [number, rest @ ..] => Ok((u64::from(*number), rest)),
    }
}

fn read_two(bytes: &[u8]) -> Result<(u64, &[u8]), CborKind>
    ensures { Gives (λ x. (x.0, x.1.now)) result (number_at w16 bytes.now) }
{
    if bytes.len() < 2 {
        return Err(CborKind::Truncated);
    }
    let (number, rest) = bytes.split_at(2);
    Ok((u64::from(BigEndian::read_u16(number)), rest))
}

fn read_four(bytes: &[u8]) -> Result<(u64, &[u8]), CborKind>
    ensures { Gives (λ x. (x.0, x.1.now)) result (number_at w32 bytes.now) }
{
    if bytes.len() < 4 {
        return Err(CborKind::Truncated);
    }
    let (number, rest) = bytes.split_at(4);
    Ok((u64::from(BigEndian::read_u32(number)), rest))
}

fn read_eight(bytes: &[u8]) -> Result<(u64, &[u8]), CborKind>
    ensures { Gives (λ x. (x.0, x.1.now)) result (number_at w64 bytes.now) }
{
    if bytes.len() < 8 {
        return Err(CborKind::Truncated);
    }
    let (number, rest) = bytes.split_at(8);
    Ok((BigEndian::read_u64(number), rest))
}

/// Why additional information 31 is refused.
fn kind_of_endless(major: u8) -> CborKind
    ensures { result ≡ endless major }
{
    match major {
        2 | 3 => CborKind::Chunked,
        4 | 5 => CborKind::Indefinite,
        _ => CborKind::Reserved,
    }
}

fn head_of(major: u8, info: u8, argument: u64) -> Result<Head, CborKind>
    ensures { result ≡ kind_of major info argument }
{
    if major == 7 {
        simple_or_float_of(info, argument)
    } else {
        Ok(typed_of(major, argument))
    }
}

/// Major type 7 (RFC 8949, section 3.3).
fn simple_or_float_of(info: u8, argument: u64) -> Result<Head, CborKind>
    ensures { result ≡ simple_or_float info argument }
{
    match info {
        0..=23 => Ok(Head::Simple(argument)),
        24 if argument < 32 => Err(CborKind::Reserved),
        24 => Ok(Head::Simple(argument)),
        25 => Ok(Head::Float {
            width: 2,
            bits: argument,
        }),
        26 => Ok(Head::Float {
            width: 4,
            bits: argument,
        }),
        _ => Ok(Head::Float {
            width: 8,
            bits: argument,
        }),
    }
}

/// Major types 0 to 6 (RFC 8949, section 3.1).
fn typed_of(major: u8, argument: u64) -> Head
    ensures { result ≡ typed major argument }
{
    match major {
        0 => Head::Unsigned(argument),
        1 => Head::Negative(argument),
        2 => Head::Bytes(argument),
        3 => Head::Text(argument),
        4 => Head::Array(argument),
        5 => Head::Map(argument),
        _ => Head::Tag(argument),
    }
}

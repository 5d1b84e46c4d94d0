//! The tag and the length of an element (X.690, 8.1.2 and 8.1.3), and its body.

ghost use Rattle.std.specs.Prelude.{◌≡◌};
ghost use Rattle.der_view.specs.Reading.{Gives, digit_count, digits_at, is_padded, long_at, length_at, body_at, first_at};

use crate::der_kind::DerKind;
use byteorder::{BigEndian, ByteOrder};

/// The element at the front of bytes, and what follows it.
#[derive(Clone, Copy)]
pub(crate) struct First<'a> {
    pub(crate) tag: u8,
    pub(crate) body: &'a [u8],
    pub(crate) rest: &'a [u8],
}

/// The element at the front: its tag, its body, and the bytes after it.
#[tactic(auto, unfolding(crate::specs::Reading::first_at))]
pub(crate) fn read_first(bytes: &[u8]) -> Result<First<'_>, DerKind>
    ensures { Gives (λ x. (x.tag, x.body.now, x.rest.now)) result (first_at bytes.now) }
{
    match bytes {
        [] => Err(DerKind::Short),
        [tag, ..] if *tag % 32 == 31 => Err(DerKind::HighTag),
        [tag, rest @ ..] => {
            let (length, rest) = read_length(rest)?;
            read_body(*tag, length, rest)
        }
    }
}

fn read_body(tag: u8, length: usize, bytes: &[u8]) -> Result<First<'_>, DerKind>
    ensures { Gives (λ x. (x.tag, x.body.now, x.rest.now)) result (body_at tag length bytes.now) }
{
    if bytes.len() < length {
        return Err(DerKind::Short);
    }
    let (body, rest) = bytes.split_at(length);
    Ok(First { tag, body, rest })
}

/// The length in the definite form with the fewest bytes (X.690, 10.1), and the bytes after it.
fn read_length(bytes: &[u8]) -> Result<(usize, &[u8]), DerKind>
    ensures { Gives (λ x. (x.0, x.1.now)) result (length_at bytes.now) }
{
    match bytes {
        [] => Err(DerKind::Short),
        [first, rest @ ..] if *first < 0x80 => Ok((usize::from(*first), rest)),
        [first, rest @ ..] => read_long(*first, rest),
    }
}

/// The long form (X.690, 8.1.3.5), whose first byte was read.
fn read_long(first: u8, bytes: &[u8]) -> Result<(usize, &[u8]), DerKind>
    ensures { Gives (λ x. (x.0, x.1.now)) result (long_at first bytes.now) }
{
    if first == 0x80 || first > 0x84 || starts_padded(first, bytes) {
        Err(DerKind::Length)
    } else {
        read_digits(first, bytes)
    }
}

/// Whether the length would have fewer bytes, by the first of its digits.
fn starts_padded(first: u8, digits: &[u8]) -> bool
    ensures { result ≡ is_padded first digits.now }
{
    match digits {
        [] => false,
        [digit, ..] => *digit == 0 || first == 0x81 && *digit < 0x80,
    }
}

/// In how many bytes the digits of a length are, by its first byte.
fn digit_count(first: u8) -> usize
    ensures { result ≡ digit_count first }
{
    match first {
        0x81 => 1,
        0x82 => 2,
        0x83 => 3,
        _ => 4,
    }
}

/// The digits of the length, in so many bytes as its first byte says.
#[tactic(auto, using(crate::proofs::Digits::digits_read, crate::proofs::Digits::digits_short, crate::proofs::Digits::at_least_one, crate::proofs::Digits::at_most_four))]
fn read_digits(first: u8, bytes: &[u8]) -> Result<(usize, &[u8]), DerKind>
    ensures { Gives (λ x. (x.0, x.1.now)) result (digits_at first bytes.now) }
{
    let count = digit_count(first);
    if bytes.len() < count {
        return Err(DerKind::Short);
    }
    let (digits, rest) = bytes.split_at(count);
    Ok((BigEndian::read_uint(digits, count) as usize, rest))
}

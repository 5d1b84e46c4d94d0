//! Elements of DER that are written (X.690).

ghost use Rattle.std.specs.Prelude.{◌≡◌, ◌++◌, length, IfOk, OnOk};
ghost use Rattle.der_view.specs.Element.{length_bytes, element};
ghost use Rattle.cert_view.specs.Slices.{slices};
ghost use Rattle.cert_view.specs.Written.{concatenated, without_zeros, sign, integer, sequence};

use mdoc_outside::Memory;
use std::alloc::Global;

/// Appends a length in the definite form with the fewest bytes (X.690, 10.1). One of 2^32 or more
/// has no such form here, and is answered by want of memory.
fn append_length(out: &mut Vec<u8>, length: usize) -> Result<(), Memory>
    ensures { OnOk result (out.new.items ≡ out.old.items ++ length_bytes length) }
{
    let low = (length % 0x100) as u8;
    if length < 0x80 {
        out.push(length as u8)?;
    } else if length < 1 << 8 {
        out.extend_from_slice(&[0x81, low])?;
    } else if length < 1 << 16 {
        out.extend_from_slice(&[0x82, (length / 0x100) as u8, low])?;
    } else if length < 1 << 24 {
        let middle = (length / 0x100 % 0x100) as u8;
        out.extend_from_slice(&[0x83, (length / 0x1_0000) as u8, middle, low])?;
    } else if length < 1 << 32 {
        let middle = (length / 0x100 % 0x100) as u8;
        let high = (length / 0x1_0000 % 0x100) as u8;
        out.extend_from_slice(&[0x84, (length / 0x100_0000) as u8, high, middle, low])?;
    } else {
        return Err(Memory);
    }
    Ok(())
}

/// The parts one after another.
fn concatenated(alloc: Global, parts: &[&[u8]]) -> Result<Vec<u8>, Memory>
    ensures { IfOk result (λ bytes. bytes.items ≡ concatenated (slices parts.now)) }
{
    let mut bytes = Vec::new(alloc);
    for part in parts {
        bytes.extend_from_slice(part)?;
    }
    Ok(bytes)
}

/// An element whose body are the parts one after another.
pub(crate) fn element(alloc: Global, tag: u8, parts: &[&[u8]]) -> Result<Vec<u8>, Memory>
    ensures { IfOk result (λ bytes. bytes.items ≡ element tag (concatenated (slices parts.now))) }
{
    let body = concatenated(alloc, parts)?;
    let mut bytes = Vec::new(alloc);
    bytes.push(tag)?;
    append_length(&mut bytes, body.len())?;
    bytes.extend_from_slice(&body)?;
    Ok(bytes)
}

/// A SEQUENCE of the parts.
pub(crate) fn sequence(alloc: Global, parts: &[&[u8]]) -> Result<Vec<u8>, Memory>
    ensures { IfOk result (λ bytes. bytes.items ≡ sequence (slices parts.now)) }
{
    element(alloc, 0x30, parts)
}

fn without_zeros(bytes: &[u8]) -> &[u8]
    ensures { result.now ≡ without_zeros bytes.now }
{
    let mut rest = bytes;
    while let [0, behind @ ..] = rest {
        rest = behind;
    }
    rest
}

/// What stands before the digits of a number that is not negative (X.690, 8.3).
fn sign(digits: &[u8]) -> &[u8]
    ensures { result.now ≡ sign digits.now }
{
    match digits {
        [first, ..] if *first < 0x80 => &[],
        _ => &[0],
    }
}

/// The INTEGER of a number that is given by bytes, the highest first.
pub(crate) fn integer(alloc: Global, bytes: &[u8]) -> Result<Vec<u8>, Memory>
    ensures { IfOk result (λ written. written.items ≡ integer bytes.now) }
{
    let digits = without_zeros(bytes);
    element(alloc, 0x02, &[sign(digits), digits])
}

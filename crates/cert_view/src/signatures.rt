//! The signature of a certificate: the pair of numbers of ECDSA (RFC 3279, 2.2.3).

ghost use Rattle.std.specs.Prelude.{◌≡◌, ◌++◌, option_map};
ghost use Rattle.der_view.specs.Der.{part};
ghost use Rattle.der_view.specs.PartsLeft.{left};
ghost use Rattle.cert_view.specs.Signatures.{inner_parts, integer, pair_of, signature_of};

use crate::integers::number_of;
use crate::shapes::{has_tag, two};
use der_view::{Der, Parts};

/// The parts of the one element of that tag in bytes of their own.
pub(crate) fn inner_parts(tag: u8, bytes: &[u8]) -> Option<Parts<'_>>
    ensures { option_map left result ≡ inner_parts tag bytes.now }
{
    match Der::read(bytes) {
        Ok(element) if has_tag(tag, element) => Some(element.parts()),
        Ok(_) => None,
        Err(_) => None,
    }
}

/// The 32 bytes of an INTEGER.
fn integer(element: Der<'_>) -> Option<[u8; 32]>
    ensures { result ≡ integer (part element.entry) }
{
    if has_tag(0x02, element) {
        number_of(element.body())
    } else {
        None
    }
}

fn concatenated(r: [u8; 32], s: [u8; 32]) -> [u8; 64]
    ensures { result ≡ r ++ s }
{
    let mut both = [0; 64];
    both[32..].copy_from_slice(&s);
    both[..32].copy_from_slice(&r);
    both
}

/// r and then s, of a SEQUENCE of two INTEGERs.
fn pair_of(bytes: &[u8]) -> Option<[u8; 64]>
    ensures { result ≡ pair_of bytes.now }
{
    let (first, second) = two(inner_parts(0x30, bytes)?)?;
    let r = integer(first)?;
    let s = integer(second)?;
    Some(concatenated(r, s))
}

/// r and then s, by the body of a BIT STRING.
pub(crate) fn signature_of(body: &[u8]) -> Option<[u8; 64]>
    ensures { result ≡ signature_of body.now }
{
    match body {
        [0, bytes @ ..] => pair_of(bytes),
        _ => None,
    }
}

//! The parts of a certificate that is written (RFC 5280, 4.1).

ghost use Rattle.std.specs.Prelude.{◌≡◌, IfOk};
ghost use Rattle.cert_view.specs.Written.{IsTime, certificate_of, extensions, name, public_key, signature, time, time_text, to_be_signed, validity, without_signs};

use crate::cert_draft::CertDraft;
use crate::elements::{element, integer, sequence};
use key_device::Point;
use mdl_table::text_of;
use mdoc_outside::{Memory, Octets};
use std::alloc::Global;

/// `[0]` with the version 3, whose number is 2.
const VERSION: [u8; 5] = [0xa0, 0x03, 0x02, 0x01, 0x02];

/// A SEQUENCE of the identifier of ECDSA with SHA-256, 1.2.840.10045.4.3.2 (RFC 5758, 3.2).
const ALGORITHM: [u8; 12] = [
    0x30, 0x0a, 0x06, 0x08, 0x2a, 0x86, 0x48, 0xce, 0x3d, 0x04, 0x03, 0x02,
];

/// The identifier of a common name, 2.5.4.3.
const COMMON_NAME: [u8; 5] = [0x06, 0x03, 0x55, 0x04, 0x03];

/// A SEQUENCE of the identifiers of a public key on an elliptic curve, 1.2.840.10045.2.1, and of the
/// curve P-256, 1.2.840.10045.3.1.7 (RFC 5480, 2.1.1).
const KEY_ALGORITHM: [u8; 21] = [
    0x30, 0x13, 0x06, 0x07, 0x2a, 0x86, 0x48, 0xce, 0x3d, 0x02, 0x01, 0x06, 0x08, 0x2a, 0x86, 0x48,
    0xce, 0x3d, 0x03, 0x01, 0x07,
];

/// `[3]` with one extension: the extended key usage, 2.5.29.37, of a document signer,
/// 1.0.18013.5.1.2 (ISO/IEC 18013-5, annex B), not marked critical.
const SIGNER_EXTENSIONS: [u8; 24] = [
    0xa3, 0x16, 0x30, 0x14, 0x30, 0x12, 0x06, 0x03, 0x55, 0x1d, 0x25, 0x04, 0x0b, 0x30, 0x09, 0x06,
    0x07, 0x28, 0x81, 0x8c, 0x5d, 0x05, 0x01, 0x02,
];

/// The first second of the year 2050, in seconds since 1970.
const YEAR_2050: i64 = 2_524_608_000;

/// A name of one part, the common name as a UTF8String (RFC 5280, 4.1.2.4).
fn name(alloc: Global, text: &[u8]) -> Result<Vec<u8>, Memory>
    ensures { IfOk result (λ bytes. bytes.items ≡ name text.now) }
{
    let text = element(alloc, 0x0c, &[text])?;
    let part = sequence(alloc, &[&COMMON_NAME, &text])?;
    let set = element(alloc, 0x31, &[&part])?;
    sequence(alloc, &[&set])
}

/// `YYYYMMDDHHMMSSZ`, of `YYYY-MM-DDTHH:MM:SSZ`.
fn without_signs(text: [u8; 20]) -> [u8; 15]
    ensures { result ≡ without_signs text }
{
    let [y, z, c, d, _, m, n, _, e, f, _, h, i, _, k, l, _, s, t, end] = text;
    [y, z, c, d, m, n, e, f, h, i, k, l, s, t, end]
}

/// `YYYYMMDDHHMMSSZ`, of a moment that has such a text.
fn time_text(moment: i64) -> [u8; 15]
    requires { IsTime moment }
    ensures { result ≡ time_text moment }
{
    match text_of(moment) {
        Some(text) => without_signs(text),
        None => unreachable!(),
    }
}

/// A UTCTime before the year 2050, and a GeneralizedTime from then on (RFC 5280, 4.1.2.5).
fn time(alloc: Global, moment: i64) -> Result<Vec<u8>, Memory>
    requires { IsTime moment }
    ensures { IfOk result (λ bytes. bytes.items ≡ time moment) }
{
    let text = time_text(moment);
    if moment < YEAR_2050 {
        let (_, within_century) = text.split_at(2);
        element(alloc, 0x17, &[within_century])
    } else {
        element(alloc, 0x18, &[&text])
    }
}

fn validity(alloc: Global, from: i64, until: i64) -> Result<Vec<u8>, Memory>
    requires from { IsTime from }
    requires until { IsTime until }
    ensures { IfOk result (λ bytes. bytes.items ≡ validity from until) }
{
    let from = time(alloc, from)?;
    let until = time(alloc, until)?;
    sequence(alloc, &[&from, &until])
}

/// A point of the curve P-256, uncompressed (RFC 5480, 2).
fn public_key(alloc: Global, key: &Point) -> Result<Vec<u8>, Memory>
    ensures { IfOk result (λ bytes. bytes.items ≡ public_key key.now) }
{
    let bits = element(alloc, 0x03, &[&[0x00, 0x04], &key.x, &key.y])?;
    sequence(alloc, &[&KEY_ALGORITHM, &bits])
}

/// The extended key usage of a document signer, and nothing for others.
fn extensions(signer: bool) -> &'static [u8]
    ensures { result.now ≡ extensions signer }
{
    if signer { &SIGNER_EXTENSIONS } else { &[] }
}

/// The to-be-signed part (RFC 5280, 4.1.2).
pub(crate) fn to_be_signed(alloc: Global, draft: &CertDraft) -> Result<Vec<u8>, Memory>
    requires from { IsTime draft.now.from }
    requires until { IsTime draft.now.until }
    ensures { IfOk result (λ bytes. bytes.items ≡ to_be_signed draft.now) }
{
    let serial = integer(alloc, &draft.serial.to_be_bytes())?;
    let issuer = name(alloc, draft.issuer.as_slice())?;
    let validity = validity(alloc, draft.from, draft.until)?;
    let subject = name(alloc, draft.subject.as_slice())?;
    let key = public_key(alloc, &draft.key)?;
    let extensions = extensions(draft.signer);
    sequence(
        alloc,
        &[
            &VERSION, &serial, &ALGORITHM, &issuer, &validity, &subject, &key, extensions,
        ],
    )
}

/// The pair of numbers of ECDSA (RFC 3279, 2.2.3).
fn signature(alloc: Global, pair: &[u8; 64]) -> Result<Vec<u8>, Memory>
    ensures { IfOk result (λ bytes. bytes.items ≡ signature pair.now) }
{
    let (r, s) = pair.split_at(32);
    let r = integer(alloc, r)?;
    let s = integer(alloc, s)?;
    let numbers = sequence(alloc, &[&r, &s])?;
    element(alloc, 0x03, &[&[0x00], &numbers])
}

/// The certificate of a to-be-signed part and a signature.
pub(crate) fn certificate_of(
    alloc: Global,
    message: &[u8],
    pair: &[u8; 64],
) -> Result<Octets, Memory>
    ensures { IfOk result (λ bytes. bytes ≡ certificate_of message.now pair.now) }
{
    let signature = signature(alloc, pair)?;
    let bytes = sequence(alloc, &[message, &ALGORITHM, &signature])?;
    Ok(Octets::from_vec(bytes))
}

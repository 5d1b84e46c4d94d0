//! The header lines of a spec file.

ghost use Rattle.std.specs.Prelude.{◌≡◌, IfOk};
ghost use Rattle.cert_view.specs.RootLine as roots;
ghost use Rattle.mdl_table.specs.Calendar.{moment_of};
ghost use Rattle.issue_spec.specs.SpecLine.{uses_mac, is_new, new_signer, known_signer, doc_type_of, time_of, header_of};

use crate::spec_header::SpecHeader;
use crate::spec_signer::SpecSigner;
use crate::spec_words::{name_of, number_within};
use cert_view::Cert;
use hex::FromHexError;
use mdl_table::moment_of;
use mdoc_outside::{MOST_CERTIFICATE_BYTES, MOST_COPIES, Memory, Octets};
use std::alloc::Global;
use std::str;

/// `sig` or `mac`.
fn uses_mac(word: &[u8]) -> Option<bool>
    ensures { result ≡ uses_mac word.now }
{
    match word {
        b"mac" => Some(true),
        b"sig" => Some(false),
        _ => None,
    }
}

pub(crate) fn is_new(word: &[u8]) -> bool
    ensures { result ≡ is_new word.now }
{
    word == b"new".as_slice()
}

/// `signer new`.
fn new_signer(word: &[u8]) -> Option<SpecHeader>
    ensures { result ≡ new_signer word.now }
{
    if is_new(word) {
        Some(SpecHeader::Signer(SpecSigner::New))
    } else {
        None
    }
}

/// The bytes of hexadecimal digits of either case, where they are not too many.
fn certificate_of(alloc: Global, digits: &[u8]) -> Result<Option<Octets>, Memory>
    ensures { IfOk result (λ bytes. bytes ≡ roots.bytes_of digits.now) }
{
    match hex::decode(alloc, digits) {
        Ok(bytes) if bytes.len() <= MOST_CERTIFICATE_BYTES => Ok(Some(Octets::from_vec(bytes))),
        Ok(_) => Ok(None),
        Err(FromHexError::OutOfMemory) => Err(Memory),
        Err(_) => Ok(None),
    }
}

/// `signer KEY HEX`.
pub(crate) fn known_signer(
    alloc: Global,
    key: &[u8],
    digits: &[u8],
) -> Result<Option<SpecHeader>, Memory>
    ensures { IfOk result (λ header. header ≡ known_signer key.now digits.now) }
{
    let Some(number) = number_within(0, u32::MAX, key) else {
        return Ok(None);
    };
    let Some(certificate) = certificate_of(alloc, digits)? else {
        return Ok(None);
    };
    if Cert::read(certificate.as_slice()).is_err() {
        return Ok(None);
    }
    Ok(Some(SpecHeader::Signer(SpecSigner::Known(number, certificate))))
}

/// The moment that a word says, in seconds since 1970.
#[tactic(auto, using(crate::proofs::SpecForms::moment_utf8))]
fn moment_in(word: &[u8]) -> Option<i64>
    ensures { result ≡ moment_of word.now }
{
    match str::from_utf8(word) {
        Ok(text) => moment_of(text),
        Err(_) => None,
    }
}

/// The time that a keyword and a word say.
fn time_of(keyword: &[u8], word: &[u8]) -> Option<SpecHeader>
    ensures { result ≡ time_of keyword.now word.now }
{
    if keyword == b"signed".as_slice() {
        moment_in(word).map(SpecHeader::Signed)
    } else if keyword == b"from".as_slice() {
        moment_in(word).map(SpecHeader::From)
    } else if keyword == b"until".as_slice() {
        moment_in(word).map(SpecHeader::Until)
    } else if keyword == b"update".as_slice() {
        moment_in(word).map(SpecHeader::Update)
    } else {
        None
    }
}

/// A document type.
fn doc_type_of(alloc: Global, word: &[u8]) -> Result<Option<SpecHeader>, Memory>
    ensures { IfOk result (λ header. header ≡ doc_type_of word.now) }
{
    match name_of(alloc, word)? {
        Some(name) => Ok(Some(SpecHeader::DocType(name))),
        None => Ok(None),
    }
}

/// A keyword and a word.
pub(crate) fn header_of(
    alloc: Global,
    keyword: &[u8],
    word: &[u8],
) -> Result<Option<SpecHeader>, Memory>
    ensures { IfOk result (λ header. header ≡ header_of keyword.now word.now) }
{
    if keyword == b"type".as_slice() {
        doc_type_of(alloc, word)
    } else if keyword == b"auth".as_slice() {
        Ok(uses_mac(word).map(SpecHeader::UsesMac))
    } else if keyword == b"copies".as_slice() {
        Ok(number_within(1, MOST_COPIES as u32, word).map(SpecHeader::Copies))
    } else if keyword == b"signer".as_slice() {
        Ok(new_signer(word))
    } else {
        Ok(time_of(keyword, word))
    }
}

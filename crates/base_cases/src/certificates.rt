//! Certificates, and the question whether a root signed them.

use cert_view::{Cert, Root, Roots};
use std::alloc::Global;

/// What is said of a certificate whose every damage is told within its bytes, or its first fault and its place.
pub(crate) fn certificate_of(alloc: Global, roots: &[u8], bytes: &[u8]) -> Option<String> {
    match Cert::read(bytes) {
        Ok(cert) => {
            if !are_damages_within(alloc, bytes)? {
                return String::from_str(alloc, "a damage isn't told within the bytes").ok();
            }
            let roots = Roots::read(alloc, roots).ok()?;
            fields_of(alloc, &cert, roots.list().first()?)
        }
        Err(fault) => {
            let (check, at) = (fault.check, fault.at);
            format!(in alloc; "{check:?} {at}").ok()
        }
    }
}

fn fields_of(alloc: Global, cert: &Cert<'_>, root: &Root) -> Option<String> {
    let names = names_of(alloc, cert)?;
    let times = times_of(alloc, cert)?;
    let question = question_of(alloc, cert, root)?;
    format!(in alloc; "{names} {times} {question}").ok()
}

/// Issuer, subject and key.
fn names_of(alloc: Global, cert: &Cert<'_>) -> Option<String> {
    let issuer = hex::encode(alloc, cert.issuer()).ok()?;
    let subject = hex::encode(alloc, cert.subject()).ok()?;
    let x = hex::encode(alloc, cert.key().x.as_slice()).ok()?;
    let y = hex::encode(alloc, cert.key().y.as_slice()).ok()?;
    format!(in alloc; "{issuer} {subject} {x} {y}").ok()
}

/// The times, and whether documents are signed.
fn times_of(alloc: Global, cert: &Cert<'_>) -> Option<String> {
    let (from, until, signs) = (cert.not_before(), cert.not_after(), cert.signs_documents());
    format!(in alloc; "{from} {until} {signs}").ok()
}

/// The message and the signature that a root is asked about.
fn question_of(alloc: Global, cert: &Cert<'_>, root: &Root) -> Option<String> {
    let ask = cert.asks(root);
    if ask.public != *root.cert().key() {
        return String::from_str(alloc, "another key").ok();
    }
    let message = hex::encode(alloc, ask.message).ok()?;
    let signature = hex::encode(alloc, ask.signature.as_slice()).ok()?;
    format!(in alloc; "{message} {signature}").ok()
}

/// Whether a fault of the bytes, where they have one, stands within them.
fn is_within(bytes: &[u8]) -> bool {
    match Cert::read(bytes) {
        Ok(_) => true,
        Err(fault) => fault.at <= bytes.len(),
    }
}

/// Whether what stands before a place is no certificate, with a fault within it.
fn is_cut_at(bytes: &[u8], place: usize) -> bool {
    match bytes.get(..place) {
        Some(cut) => Cert::read(cut).is_err() && is_within(cut),
        None => false,
    }
}

/// Whether a fault stands within the bytes with another byte at that place.
fn is_within_with(alloc: Global, bytes: &[u8], place: usize, byte: u8) -> Option<bool> {
    let mut other = bytes.to_vec(alloc).ok()?;
    *other.get_mut(place)? = byte;
    Some(is_within(&other))
}

/// Whether what is cut short is no certificate, and a fault stands within the bytes, wherever they are damaged.
fn are_damages_within(alloc: Global, bytes: &[u8]) -> Option<bool> {
    for place in 0..bytes.len() {
        let zero = is_within_with(alloc, bytes, place, 0x00)?;
        let ones = is_within_with(alloc, bytes, place, 0xff)?;
        if !is_cut_at(bytes, place) || !zero || !ones {
            return Some(false);
        }
    }
    Some(true)
}

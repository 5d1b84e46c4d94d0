//! Responses that are cut short or have another byte somewhere.

use cbor_view::View;
use doc_response::{Response, ResponseFault};
use mdoc_outside::KeyName;
use std::alloc::Global;

/// Whether a name is a key of a response.
fn is_key(name: KeyName) -> bool {
    matches!(
        name,
        KeyName::Version
            | KeyName::Documents
            | KeyName::DocumentErrors
            | KeyName::Status
            | KeyName::DocType
            | KeyName::IssuerSigned
            | KeyName::DeviceSigned
            | KeyName::Errors
            | KeyName::NameSpaces
            | KeyName::IssuerAuth
            | KeyName::DeviceAuth
    )
}

/// Whether bytes are no item, or a response, or have a fault at a key of one.
fn is_told(bytes: &[u8]) -> bool {
    let Ok(view) = View::read(bytes) else {
        return true;
    };
    match Response::read(view) {
        Err(ResponseFault::Field(name)) => is_key(name),
        _ => true,
    }
}

/// Whether bytes that are cut short are no item, wherever they are cut.
fn are_cuts_refused(bytes: &[u8]) -> bool {
    for cut in 0..bytes.len() {
        if View::read(&bytes[..cut]).is_ok() {
            return false;
        }
    }
    true
}

/// Whether bytes are told with that byte at each place.
fn are_changes_told(alloc: Global, bytes: &[u8], byte: u8) -> Option<bool> {
    for place in 0..bytes.len() {
        let mut changed = bytes.to_vec(alloc).ok()?;
        *changed.get_mut(place)? = byte;
        if !is_told(&changed) {
            return Some(false);
        }
    }
    Some(true)
}

/// Whether all damages of bytes are told.
pub(crate) fn are_told(alloc: Global, bytes: &[u8]) -> Option<bool> {
    let zeros = are_changes_told(alloc, bytes, 0x00)?;
    let ones = are_changes_told(alloc, bytes, 0xff)?;
    Some(are_cuts_refused(bytes) && zeros && ones)
}

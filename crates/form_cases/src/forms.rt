//! What is said of bytes as a form.

use crate::damages;
use cbor_view::View;
use cose_msgs::{CoseKey, Mac0, Sign1};
use doc_request::Request;
use doc_response::Response;
use issuer_items::Item;
use mso_digests::Mso;
use std::alloc::Global;

/// What is said of bytes in hexadecimal digits.
pub(crate) fn said_of(alloc: Global, word: &str, digits: &str) -> Option<String> {
    let bytes = hex::decode(alloc, digits.as_bytes()).ok()?;
    match word {
        "item" => of_item(alloc, &bytes),
        "object" => of_object(alloc, &bytes),
        _ => match View::read(&bytes) {
            Ok(view) => of_view(alloc, word, view),
            Err(_) => String::from_str(alloc, "no CBOR").ok(),
        },
    }
}

fn of_view(alloc: Global, word: &str, view: View<'_>) -> Option<String> {
    match word {
        "key" => of_key(alloc, view),
        "signature" => of_signature(alloc, view),
        "code" => of_code(alloc, view),
        "chain" => of_chain(alloc, view),
        "request" => of_request(alloc, view),
        "response" => of_response(alloc, view),
        _ => None,
    }
}

/// What is said of bytes that are read.
fn of_read(alloc: Global) -> Option<String> {
    String::from_str(alloc, "Ok").ok()
}

fn of_item(alloc: Global, bytes: &[u8]) -> Option<String> {
    match Item::read(bytes) {
        Ok(_) => of_read(alloc),
        Err(fault) => format!(in alloc; "{fault:?}").ok(),
    }
}

fn of_object(alloc: Global, bytes: &[u8]) -> Option<String> {
    match Mso::read(bytes) {
        Ok(_) => of_read(alloc),
        Err(fault) => format!(in alloc; "{fault:?}").ok(),
    }
}

fn of_key(alloc: Global, view: View<'_>) -> Option<String> {
    match CoseKey::read(view) {
        Ok(_) => of_read(alloc),
        Err(fault) => format!(in alloc; "{fault:?}").ok(),
    }
}

fn of_signature(alloc: Global, view: View<'_>) -> Option<String> {
    match Sign1::read(view) {
        Ok(_) => of_read(alloc),
        Err(fault) => format!(in alloc; "{fault:?}").ok(),
    }
}

fn of_code(alloc: Global, view: View<'_>) -> Option<String> {
    match Mac0::read(view) {
        Ok(_) => of_read(alloc),
        Err(fault) => format!(in alloc; "{fault:?}").ok(),
    }
}

fn of_chain(alloc: Global, view: View<'_>) -> Option<String> {
    match Sign1::read(view).ok()?.chain() {
        Some(chain) => hex::encode(alloc, chain).ok(),
        None => String::from_str(alloc, "-").ok(),
    }
}

fn of_request(alloc: Global, view: View<'_>) -> Option<String> {
    match Request::read(view) {
        Ok(_) => of_read(alloc),
        Err(fault) => format!(in alloc; "{fault:?}").ok(),
    }
}

/// What is said of a response, each damage of which is told too.
fn of_response(alloc: Global, view: View<'_>) -> Option<String> {
    if !damages::are_told(alloc, view.raw())? {
        return String::from_str(alloc, "a damage isn't told").ok();
    }
    match Response::read(view) {
        Ok(_) => of_read(alloc),
        Err(fault) => format!(in alloc; "{fault:?}").ok(),
    }
}

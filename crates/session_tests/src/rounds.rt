//! Two rounds of both ends, whose messages `tests/vectors/session_messages` computes.

use crate::ends::{
    Answered, Ends, Requested, Toy, agreed, both_ends, first_request, next_answer, next_request,
    request_opened,
};
use doc_response::mac_key;
use key_device::Told;
use mdoc_outside::Octets;
use session_seal::{ReaderReady, WalletAsked, WalletOpen};
use std::alloc::Global;
use std::test::*;

const FIRST: &[u8] =
    b"\xa2\x6a\x65\x52\x65\x61\x64\x65\x72\x4b\x65\x79\xd8\x18\x58\x4b\xa4\x01\x02\x20\x01\x21\x58\x20\x12\x75\x8c\xa2\x1f\x22\x41\x1b\x2c\x7e\x7b\x19\x0c\x31\xf6\x87\x28\x99\x05\xe3\xa7\xbb\xc6\xe9\x31\x28\x18\x15\xcb\xbd\xa3\x7f\x22\x58\x20\x57\x7f\xf0\x9d\xd7\x6d\x07\x45\xe7\x11\xad\x36\x6b\x90\x66\x9c\x16\xf6\xbd\xe6\xb3\x5b\x78\x8f\x96\xce\xd7\xd9\xb4\x10\xa3\x48\x64\x64\x61\x74\x61\x50\x97\xcd\x9f\x7a\xa7\xa4\x8c\x03\xeb\x53\x29\x36\x5b\x2c\x43\xd3";

const ANSWER: &[u8] =
    b"\xa1\x64\x64\x61\x74\x61\x55\xa5\xd0\x9f\xe1\xb0\x18\xc7\xf4\x88\x1e\x95\x80\xca\x48\x6d\x69\xce\x5b\x59\x58\xd9";

const NEXT: &[u8] =
    b"\xa1\x64\x64\x61\x74\x61\x56\x96\xfe\xff\x04\x8a\x03\x65\xd2\xc1\x43\x2d\x91\xcc\x0f\x2e\xac\x43\xc7\x09\x82\x13\xe4";

const LAST: &[u8] =
    b"\xa2\x64\x64\x61\x74\x61\x54\xe6\x00\xe0\x05\xc6\xed\x75\xe7\x32\x2a\x81\xc0\x21\x79\xf2\x30\xe7\x28\xe9\xec\x66\x73\x74\x61\x74\x75\x73\x14";

const MAC_KEY: &[u8] =
    b"\xbd\xdf\x59\xa1\xe9\xe1\x0f\xbc\x5d\x76\xe5\x7a\xf3\x03\x80\xbb\x43\x68\xf3\x85\x2b\x76\x1f\x25\xd2\x84\xcd\xb3\xa2\x03\x9e\x6f";

fn are(message: &Octets, text: &Octets, wanted: (&[u8], &[u8])) -> bool {
    message.as_slice() == wanted.0 && text.as_slice() == wanted.1
}

/// Both ends after a request, where its message and its text are the wanted ones.
fn request_with(ends: Requested, message: &[u8], text: &[u8]) -> Option<Requested> {
    if are(&ends.message, &ends.text, (message, text)) {
        Some(ends)
    } else {
        None
    }
}

/// Both ends after an answer, where its message and its text are the wanted ones.
fn answer_with(ends: Answered, message: &[u8], text: &[u8]) -> Option<Answered> {
    if are(&ends.message, &ends.text, (message, text)) {
        Some(ends)
    } else {
        None
    }
}

fn after_first_request(alloc: Global) -> Option<Requested> {
    request_with(first_request(alloc)?, FIRST, b"")
}

fn after_first_answer(alloc: Global) -> Option<Answered> {
    let ends = after_first_request(alloc)?;
    answer_with(next_answer(alloc, ends, b"first", false)?, ANSWER, b"first")
}

fn after_next_request(alloc: Global) -> Option<Requested> {
    let ends = after_first_answer(alloc)?;
    request_with(next_request(alloc, ends, b"second")?, NEXT, b"second")
}

fn after_last_answer(alloc: Global) -> Option<Answered> {
    let ends = after_next_request(alloc)?;
    answer_with(next_answer(alloc, ends, b"last", true)?, LAST, b"last")
}

#[test]
fn first_round(rt: HostRuntime) {
    assert!(rt; after_first_request(rt.alloc()).is_some());
    assert!(rt; after_first_answer(rt.alloc()).is_some());
}

fn last_status(alloc: Global) -> Option<u64> {
    after_last_answer(alloc)?.reader.peer_status()
}

#[test]
fn second_round(rt: HostRuntime) {
    assert!(rt; after_next_request(rt.alloc()).is_some());
    assert!(rt; last_status(rt.alloc()) == Some(20));
}

/// The state from which a message was opened.
fn back(wallet: WalletAsked) -> Option<WalletOpen> {
    if wallet.place() > 1 {
        Some(wallet.back())
    } else {
        None
    }
}

/// Whether the second request is opened once more from the state that `back` gives.
fn is_opened_again(alloc: Global) -> Option<bool> {
    let Requested {
        wallet,
        reader: _,
        message,
        text: _,
    } = after_next_request(alloc)?;
    let (_, text) = request_opened(alloc, back(wallet)?, message.as_slice())?;
    Some(text.as_slice() == b"second".as_slice())
}

#[test]
fn opened_again_after_back(rt: HostRuntime) {
    assert!(rt; is_opened_again(rt.alloc()) == Some(true));
}

/// The secret that a device told last.
fn told_secret(device: &Toy) -> Option<[u8; 32]> {
    match device.talk().last()?.told {
        Told::Secret(secret) => Some(secret),
        _ => None,
    }
}

fn key_for_codes(alloc: Global, secret: &[u8; 32], ready: &ReaderReady) -> Option<[u8; 32]> {
    mac_key(alloc, secret, ready.transcript()).ok()
}

/// The key for codes, of the secret that the reader's device told.
fn told_key(alloc: Global) -> Option<[u8; 32]> {
    let Ends {
        wallet: _,
        wallet_device: _,
        reader,
        mut reader_device,
    } = both_ends(alloc)?;
    let ready = agreed(alloc, reader, &mut reader_device)?;
    let secret = told_secret(&reader_device)?;
    key_for_codes(alloc, &secret, &ready)
}

#[test]
fn key_for_codes_of_a_session(rt: HostRuntime) {
    assert!(rt; told_key(rt.alloc()).is_some_and(|key| key.as_slice() == MAC_KEY));
}

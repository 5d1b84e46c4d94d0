//! How a session ends, in worked cases.

use crate::ends::{Answered, Ends, Requested, both_ends, first_request, next_answer, next_request};
use mdoc_outside::Octets;
use session_seal::{
    ReaderEnd, ReaderEnded, SessionData, SessionStatus, Stop, WalletEnd, WalletEnded, WalletOpen,
};
use std::alloc::Global;
use std::test::*;

/// SessionData with status 20, and the last messages of an end.
const TERMINATION: &[u8] = b"\xa1\x66status\x14";

const DECODING: &[u8] = b"\xa1\x66status\x0b";

const ENCRYPTION: &[u8] = b"\xa1\x66status\x0a";

const STATUSES: [(SessionStatus, &[u8]); 3] = [
    (SessionStatus::Termination, TERMINATION),
    (SessionStatus::Decoding, DECODING),
    (SessionStatus::Encryption, ENCRYPTION),
];

fn is_written(status: SessionStatus, message: &[u8]) -> bool {
    status.message().as_slice() == message
}

#[test]
fn status_messages(rt: HostRuntime) {
    for (status, message) in &STATUSES {
        assert!(rt; is_written(*status, message), "{message:?}");
    }
}

/// SessionData outside its form: neither field, a status or data of another kind, a key twice, no map, no item.
const NO_DATA: [&[u8]; 9] = [
    b"",
    b"\xa0",
    b"\x80",
    b"\xff",
    b"\xa1\x66status\x61a",
    b"\xa1\x64data\x01",
    b"\xa2\x64data\x40\x64data\x40",
    b"\xa2\x66status\x14\x66status\x14",
    b"\xa2\x64data\x40\x66status\xf6",
];

fn is_session_data(bytes: &[u8]) -> bool {
    SessionData::read(bytes).is_some()
}

#[test]
fn session_data_outside_its_form(rt: HostRuntime) {
    for bytes in &NO_DATA {
        assert!(rt; !is_session_data(bytes), "{bytes:?}");
    }
    assert!(rt; is_session_data(b"\xa2\x61x\xf6\x66status\x18\x14"));
}

/// How a session ended, where it did.
fn ending<S: Drop, E: Drop, O: Drop>(outcome: Result<O, Stop<S, E>>) -> Option<E> {
    match outcome {
        Err(Stop::Ended(ended)) => Some(ended),
        _ => None,
    }
}

/// Whether the wallet's session ended by that check, with that last message.
fn wallet_ends(ended: Option<WalletEnded>, check: WalletEnd, last: Option<&[u8]>) -> bool {
    match ended {
        Some(ended) => ended.check() == check && ended.last_message() == last,
        None => false,
    }
}

/// Whether the reader's session ended by that check, with that last message.
fn reader_ends(ended: Option<ReaderEnded>, check: ReaderEnd, last: Option<&[u8]>) -> bool {
    match ended {
        Some(ended) => ended.check() == check && ended.last_message() == last,
        None => false,
    }
}

/// How the wallet's session ends by its first message, where it does.
fn end_by_first(alloc: Global, message: &[u8]) -> Option<WalletEnded> {
    let Ends {
        wallet,
        mut wallet_device,
        reader: _,
        reader_device: _,
    } = both_ends(alloc)?;
    if message.len() > 1 << 24 {
        return None;
    }
    ending(wallet.establish(alloc, message, &mut wallet_device))
}

#[test]
fn status_in_place_of_the_first_message(rt: HostRuntime) {
    let ended = end_by_first(rt.alloc(), TERMINATION);
    assert!(rt; wallet_ends(ended, WalletEnd::MessageForm, Some(DECODING)));
}

/// The message with one bit changed of the byte at that place from its end, the last being 1.
fn changed(alloc: Global, message: &[u8], from_end: usize) -> Option<Vec<u8>> {
    let mut bytes = message.to_vec(alloc).ok()?;
    let place = bytes.len().checked_sub(from_end)?;
    *bytes.get_mut(place)? ^= 1;
    Some(bytes)
}

fn end_by_changed_first(alloc: Global, from_end: usize) -> Option<WalletEnded> {
    let first = first_request(alloc)?.message;
    end_by_first(alloc, &changed(alloc, first.as_slice(), from_end)?)
}

#[test]
fn first_message_changed(rt: HostRuntime) {
    for from_end in 1..=16 {
        let ended = end_by_changed_first(rt.alloc(), from_end);
        assert!(rt;
            wallet_ends(ended, WalletEnd::Sealed, Some(ENCRYPTION)),
            "{from_end} from the end"
        );
    }
}

/// How the wallet's session ends by a later message, where it does.
fn end_by_later(alloc: Global, wallet: WalletOpen, message: &[u8]) -> Option<WalletEnded> {
    if wallet.place() > 1000 || message.len() > 1 << 24 {
        return None;
    }
    ending(wallet.open_next(alloc, message))
}

/// Both ends after the first answer.
fn first_answer(alloc: Global) -> Option<Answered> {
    next_answer(alloc, first_request(alloc)?, b"first", false)
}

/// The wallet at place 3, and the message that it opened at place 2.
fn second_answer(alloc: Global) -> Option<(WalletOpen, Octets)> {
    let Requested {
        wallet,
        reader,
        message,
        text,
    } = next_request(alloc, first_answer(alloc)?, b"second")?;
    let again = Octets::copy_of(alloc, message.as_slice()).ok()?;
    let ends = Requested {
        wallet,
        reader,
        message,
        text,
    };
    let Answered {
        wallet,
        reader: _,
        message: _,
        text: _,
    } = next_answer(alloc, ends, b"last", false)?;
    Some((wallet, again))
}

fn end_by_message_again(alloc: Global) -> Option<WalletEnded> {
    let (wallet, message) = second_answer(alloc)?;
    end_by_later(alloc, wallet, message.as_slice())
}

#[test]
fn message_brought_again(rt: HostRuntime) {
    let ended = end_by_message_again(rt.alloc());
    assert!(rt; wallet_ends(ended, WalletEnd::Sealed, Some(ENCRYPTION)));
}

fn end_by_later_status(alloc: Global) -> Option<WalletEnded> {
    let Answered {
        wallet,
        reader: _,
        message: _,
        text: _,
    } = first_answer(alloc)?;
    end_by_later(alloc, wallet, TERMINATION)
}

#[test]
fn later_status(rt: HostRuntime) {
    let ended = end_by_later_status(rt.alloc());
    assert!(rt; wallet_ends(ended, WalletEnd::PeerStatus(20), None));
}

/// How the reader's session ends by its first answer, where it does.
fn end_by_answer(alloc: Global, message: &[u8]) -> Option<ReaderEnded> {
    let Requested {
        wallet: _,
        reader,
        message: _,
        text: _,
    } = first_request(alloc)?;
    if reader.place() > 1000 || message.len() > 1 << 24 {
        return None;
    }
    ending(reader.open_next(alloc, message))
}

fn end_by_changed_answer(alloc: Global, from_end: usize) -> Option<ReaderEnded> {
    let answer = first_answer(alloc)?.message;
    end_by_answer(alloc, &changed(alloc, answer.as_slice(), from_end)?)
}

#[test]
fn first_answer_changed(rt: HostRuntime) {
    for from_end in 1..=21 {
        let ended = end_by_changed_answer(rt.alloc(), from_end);
        assert!(rt;
            reader_ends(ended, ReaderEnd::Sealed, Some(ENCRYPTION)),
            "{from_end} from the end"
        );
    }
}

/// Answers that end the reader's session, each with the check and the last message.
const ANSWERS: [(&[u8], ReaderEnd, Option<&[u8]>); 3] = [
    (b"\xa0", ReaderEnd::SessionForm, Some(DECODING)),
    (DECODING, ReaderEnd::PeerStatus(11), None),
    (b"\xa1\x64data\x41a", ReaderEnd::Sealed, Some(ENCRYPTION)),
];

#[test]
fn ends_of_the_reader(rt: HostRuntime) {
    for (message, check, last) in &ANSWERS {
        let ended = end_by_answer(rt.alloc(), message);
        assert!(rt; reader_ends(ended, *check, *last), "{message:?}");
    }
}

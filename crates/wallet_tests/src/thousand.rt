//! A session of a thousand rounds, the most that one has, with a reader of `session_seal`. Its replies are those that
//! `tests/vectors/wallet_sessions` computes.

use crate::sessions::{bytes_of, is_hex, is_reply, started};
use crate::stores::{ALL, BOTH, ROOTS};
use cert_view::Roots;
use consent::Rules;
use doc_store::Store;
use engagement::Engagement;
use key_device::{KeyDevice, Recorder, ToyDevice};
use mdoc_outside::{Fragment, Octets};
use session_seal::{ReaderAnswered, ReaderEngaged, ReaderReady, ReaderWaiting};
use sha2::{Digest, Sha256};
use std::alloc::Global;
use std::test::*;
use wallet_core::{ReleasedAt, Reply, WalletEnd, WalletNode};

type Toy = Recorder<ToyDevice>;

/// The request of each round, for one element, in hexadecimal digits.
const REQUEST: &str =
    "a26776657273696f6e63312e306b646f63526571756573747381a16c6974656d7352657175657374d818581da267646f635479706561646a6e616d65537061636573a1616ea16161f4";

/// The SHA-256 of the replies, one after the other.
const REPLIES: &str = "3bd48fbb5d140eff59225c7ea25048b6ff9bfaba0bef6a96e100c0edf2209299";

/// The place of the last round.
const LAST: u32 = 1000;

/// The status with which the wallet ends the session (ISO/IEC 18013-5, table 20).
const TERMINATION: u64 = 20;

/// The reader that agreed with the wallet that is announced so.
fn reader_of(alloc: Global, engagement: &[u8]) -> Option<ReaderReady> {
    let peer = *Engagement::read(engagement).ok()?.key();
    let mut device = Recorder::new(alloc, ToyDevice::new(1, 3, 9));
    let made = device.fresh().ok()?;
    let engagement = Octets::copy_of(alloc, engagement).ok()?;
    let handover = Octets::copy_of(alloc, b"\xf6").ok()?;
    let engaged = ReaderEngaged::new(engagement, handover, peer, made);
    engaged.agree(alloc, &mut device).ok()
}

/// The first request.
fn first(alloc: Global, reader: ReaderReady, request: &[u8]) -> Option<(ReaderWaiting, Octets)> {
    if request.len() > 1 << 24 {
        return None;
    }
    reader.first(alloc, request).ok()
}

/// The next request.
fn next(alloc: Global, reader: ReaderAnswered, request: &[u8]) -> Option<(ReaderWaiting, Octets)> {
    if reader.place() > LAST || request.len() > 1 << 24 {
        return None;
    }
    reader.seal_next(alloc, request).ok()
}

/// The reader after the reply that it opened.
fn opened(alloc: Global, reader: ReaderWaiting, message: &[u8]) -> Option<ReaderAnswered> {
    if reader.place() > LAST || message.len() > 1 << 24 {
        return None;
    }
    let (reader, _) = reader.open_next(alloc, message).ok()?;
    Some(reader)
}

/// A message as one fragment.
fn fragment_of(alloc: Global, message: &[u8]) -> Option<Fragment> {
    let mut bytes = vec![in alloc; 0].ok()?;
    bytes.extend_from_slice(message).ok()?;
    Some(Fragment::Data(Octets::from_vec(bytes)))
}

/// Whether a reply, and the status that the reader was sent with it, are those of a round.
fn is_of_round(place: u32, reply: &Reply, status: Option<u64>) -> bool {
    if place == LAST {
        reply.ended == Some(WalletEnd::Thousand) && status == Some(TERMINATION)
    } else {
        reply.ended.is_none() && status.is_none()
    }
}

/// The reader after the round at a place, whose reply is added to the others.
fn round(
    alloc: Global,
    wallet: &mut WalletNode<'_>,
    device: &mut Toy,
    reader: ReaderWaiting,
    message: &Octets,
    place: u32,
    replies: &mut Vec<u8>,
) -> Option<ReaderAnswered> {
    let fragment = fragment_of(alloc, message.as_slice())?;
    let reply = wallet.take(&fragment, device).ok()?;
    let sent = reply.message.as_ref()?.as_slice();
    replies.extend_from_slice(sent).ok()?;
    let reader = opened(alloc, reader, sent)?;
    if is_of_round(place, &reply, reader.peer_status()) {
        Some(reader)
    } else {
        None
    }
}

/// The replies of all rounds, one after the other.
fn replies_of(
    alloc: Global,
    wallet: &mut WalletNode<'_>,
    device: &mut Toy,
    request: &[u8],
) -> Option<Vec<u8>> {
    let reader = reader_of(alloc, wallet.announced().engagement)?;
    let mut replies = Vec::new(alloc);
    let (mut reader, mut message) = first(alloc, reader, request)?;
    for place in 1..LAST {
        let answered = round(alloc, wallet, device, reader, &message, place, &mut replies)?;
        let (waiting, sent) = next(alloc, answered, request)?;
        reader = waiting;
        message = sent;
    }
    round(alloc, wallet, device, reader, &message, LAST, &mut replies)?;
    Some(replies)
}

/// Whether these are the places of the one element, once for each round.
fn is_released_in_each(places: &[ReleasedAt]) -> bool {
    for place in places {
        let is_named = place.ns.as_slice() == b"n".as_slice()
            && place.name.as_slice() == b"a".as_slice();
        if place.document != 0 || !is_named {
            return false;
        }
    }
    places.len() == 1000
}

/// Whether a further fragment is answered by no message, and the same end.
fn is_over(alloc: Global, wallet: &mut WalletNode<'_>, device: &mut Toy) -> Option<bool> {
    let fragment = fragment_of(alloc, b"\xff")?;
    let reply = wallet.take(&fragment, device).ok()?;
    let is_same = is_reply(alloc, &reply, None, Some(WalletEnd::Thousand));
    Some(is_same && wallet.close() == WalletEnd::Thousand)
}

/// Whether the session goes as is said.
fn has_thousand_rounds(alloc: Global) -> Option<bool> {
    let bytes = bytes_of(alloc, BOTH)?;
    let store = Store::read(alloc, &bytes).ok()?;
    let rules = Rules::read(alloc, ALL.as_bytes()).ok()?;
    let readers = Roots::read(alloc, ROOTS.as_bytes()).ok()?;
    let mut device = Recorder::new(alloc, ToyDevice::new(1, 1, 5));
    let mut wallet = started(alloc, &store, &rules, &readers, &mut device)?;
    let request = hex::decode(alloc, REQUEST.as_bytes()).ok()?;
    let replies = replies_of(alloc, &mut wallet, &mut device, &request)?;
    let are_sent = is_hex(alloc, &Sha256::digest(&replies), REPLIES);
    let is_over = is_over(alloc, &mut wallet, &mut device)?;
    Some(are_sent && is_over && is_released_in_each(wallet.released()))
}

#[test]
fn thousand_rounds(rt: HostRuntime) {
    assert!(rt; has_thousand_rounds(rt.alloc()) == Some(true));
}

//! What sessions are made with, and what comes and is replied.

use crate::stores::{ENGAGEMENT, MOMENT, Part, WORD};
use cert_view::Roots;
use consent::Rules;
use doc_store::Store;
use key_device::{KeyDevice, Recorder, ReplayDevice};
use mdoc_outside::{CountDice, Dealt, Fragment, Octets};
use std::alloc::Global;
use wallet_core::{ReleasedAt, Reply, WalletEnd, WalletNode, WalletSetup};

/// The size of the fragments that are sent.
const SIZE: u16 = 512;

/// What comes over the link.
pub(crate) enum Comes {
    /// A data fragment, in hexadecimal digits.
    Data(&'static str),
    /// A value of State.
    State(u8),
}

/// The bytes of a store.
pub(crate) fn bytes_of(alloc: Global, parts: &[Part]) -> Option<Vec<u8>> {
    let mut bytes = Vec::new(alloc);
    for part in parts {
        match part {
            Part::Digits(digits) => {
                let part = hex::decode(alloc, digits.as_bytes()).ok()?;
                bytes.extend_from_slice(&part).ok()?;
            }
            Part::Zeros(count) => {
                let zeros = vec![in alloc; 0; *count].ok()?;
                bytes.extend_from_slice(&zeros).ok()?;
            }
        }
    }
    Some(bytes)
}

/// A device that tells what the lines of a tape say, and fails at any other question.
pub(crate) fn device_of(alloc: Global, lines: &[&str]) -> Option<Recorder<ReplayDevice>> {
    let mut tape = Vec::new(alloc);
    for line in lines {
        tape.extend_from_slice(line.as_bytes()).ok()?;
    }
    let device = ReplayDevice::read(alloc, &tape).ok()?;
    Some(Recorder::new(alloc, device))
}

/// What a wallet is made with.
pub(crate) fn setup_of<'a>(
    store: &'a Store<'a>,
    rules: &'a Rules,
    readers: &'a Roots,
) -> WalletSetup<'a> {
    WalletSetup {
        store,
        choice: &[0, 0],
        rules,
        readers,
        size: SIZE,
        moment: MOMENT,
        nfc: false,
        request: None,
    }
}

/// Dice whose first word is the same each time.
pub(crate) fn dice_of(alloc: Global) -> Dealt<CountDice> {
    Dealt::new(alloc, CountDice::new(WORD))
}

/// A wallet that was started.
pub(crate) fn started<'a, D: KeyDevice>(
    alloc: Global,
    store: &'a Store<'a>,
    rules: &'a Rules,
    readers: &'a Roots,
    device: &mut Recorder<D>,
) -> Option<WalletNode<'a>> {
    let mut setup = setup_of(store, rules, readers);
    setup.nfc = false;
    setup.request = None;
    WalletNode::new(alloc, setup, &mut dice_of(alloc), device).ok()
}

/// Whether bytes are those of digits.
pub(crate) fn is_hex(alloc: Global, bytes: &[u8], digits: &str) -> bool {
    match hex::encode(alloc, bytes) {
        Ok(text) => text.as_str() == digits,
        Err(_) => false,
    }
}

/// Whether a wallet announces by a QR code what each session does, and is of the size that it was made with.
pub(crate) fn is_announced(alloc: Global, node: &WalletNode<'_>) -> bool {
    let announced = node.announced();
    is_hex(alloc, announced.engagement, ENGAGEMENT)
        && announced.select.is_none()
        && node.size() == SIZE
}

/// A fragment of what comes.
pub(crate) fn fragment_of(alloc: Global, comes: &Comes) -> Option<Fragment> {
    match comes {
        Comes::Data(digits) => {
            let bytes = hex::decode(alloc, digits.as_bytes()).ok()?;
            Some(Fragment::Data(Octets::from_vec(bytes)))
        }
        Comes::State(value) => Some(Fragment::State(*value)),
    }
}

/// Whether a reply has that message, in hexadecimal digits, if any, and says that end, if any.
pub(crate) fn is_reply(
    alloc: Global,
    reply: &Reply,
    message: Option<&str>,
    ended: Option<WalletEnd>,
) -> bool {
    let is_sent = match (&reply.message, message) {
        (Some(found), Some(digits)) => is_hex(alloc, found.as_slice(), digits),
        (None, None) => true,
        _ => false,
    };
    is_sent && reply.ended == ended
}

/// Whether these are the places of what was released.
pub(crate) fn are_places(found: &[ReleasedAt], wanted: &[(usize, &str, &str)]) -> bool {
    if found.len() != wanted.len() {
        return false;
    }
    for (place, (document, ns, name)) in found.iter().zip(wanted) {
        let is_named = place.ns.as_slice() == ns.as_bytes()
            && place.name.as_slice() == name.as_bytes();
        if place.document != *document || !is_named {
            return false;
        }
    }
    true
}

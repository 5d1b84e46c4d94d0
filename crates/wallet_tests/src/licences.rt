//! A licence whose portrait, family name and age over 18 are asked for, of which `tests/vectors/wallet_sessions` computes all
//! that the wallet does.

use crate::sessions::{are_places, bytes_of, is_announced, is_hex, started};
use crate::stores::{ALL, LICENCE, LICENCE_BY_CODE, Part, ROOTS};
use ble_fragments::cut;
use cert_view::Roots;
use consent::Rules;
use doc_store::Store;
use key_device::{Recorder, ToyDevice};
use mdoc_outside::{Fragment, Octets};
use sha2::{Digest, Sha256};
use std::alloc::Global;
use std::test::*;
use wallet_core::WalletEnd;

/// The fragment that comes, in hexadecimal digits.
const ASKED: &str =
    "00a26a655265616465724b6579d818584ba4010220012158203b5c100c9d8385bbd7aa53426a3b83e26e5db32344169909f061c9608294874b225820ae2d95100260407aadeaf1fa0cc5c08983331c8d70f7b27d4de3444846fbd8b66464617461589ee73cb3d430a6ca6558be42154fa3aff0757b58282754cd9458e5fef6ae3ce86ceb09636942d0923c25da5ffc9a8c22b71f7edcfb731f6d48793bacbac31c02e16b29e2087b23ce52b7d00572527b612392b288d1772b5600583513bc50204ecd08c65b1bf2eeba8418a244be3c76f43235964ad6dbd25e55385a80d375c0b59256b45c83e348cce43881a0cda391e404fff4b085f1814853e8cab72e76b7";

/// A licence that is held, and what the wallet does. Digests are those of SHA-256.
struct Licence {
    /// The store.
    store: &'static [Part],
    /// The digest of the tape of all that the device is asked.
    tape: &'static str,
    /// How many bytes the reply has.
    length: usize,
    /// The digest of the reply.
    reply: &'static str,
    /// The digest of the fragments that are sent, one after the other.
    sent: &'static str,
}

const LICENCES: [Licence; 2] = [
    Licence {
        store: LICENCE,
        tape: "58fa6cbc84cc99125df9ebb285ed1d2cb91d23e0d5994d84407495b688c5d830",
        length: 31_640,
        reply: "5b2bcec2c4a16edbffd9e1d4e6e60ef1981613f28b6b3f053277855c258858f6",
        sent: "efd451e439672ad12b67a261f6cf32b8874e87a21c35626d255c268832dbca4d",
    },
    Licence {
        store: LICENCE_BY_CODE,
        tape: "f191f322b14c99c2f147f97941ac8ef55a8a534f0da9ee72bcec09020f25c849",
        length: 31_602,
        reply: "3bd204498a298fc237b7fe03e3ab430490ff0b2a01b4e806f8ca23f291598abf",
        sent: "da245ae84b0d2c76d428c045c303e086290ac4e09c26b8b6f9eec5db14f2836e",
    },
];

/// The places of what is released.
const RELEASED: [(usize, &str, &str); 3] = [
    (0, "org.iso.18013.5.1", "portrait"),
    (0, "org.iso.18013.5.1", "family_name"),
    (0, "org.iso.18013.5.1", "age_over_18"),
];

/// Whether bytes have that digest.
fn has_digest(alloc: Global, bytes: &[u8], digest: &str) -> bool {
    is_hex(alloc, &Sha256::digest(bytes), digest)
}

/// The fragments of a message, one after the other.
fn fragments_of(alloc: Global, message: &[u8]) -> Option<Vec<u8>> {
    let mut bytes = Vec::new(alloc);
    for piece in cut(message, 512) {
        bytes.push(if piece.is_last { 0 } else { 1 }).ok()?;
        bytes.extend_from_slice(piece.bytes).ok()?;
    }
    Some(bytes)
}

/// Whether a message is the reply of a licence.
fn is_sent(alloc: Global, licence: &Licence, message: &[u8]) -> Option<bool> {
    let sent = fragments_of(alloc, message)?;
    let is_reply = message.len() == licence.length && has_digest(alloc, message, licence.reply);
    Some(is_reply && has_digest(alloc, &sent, licence.sent))
}

/// Whether the wallet does with a licence what is said.
fn is_shown(alloc: Global, licence: &Licence) -> Option<bool> {
    let bytes = bytes_of(alloc, licence.store)?;
    let store = Store::read(alloc, &bytes).ok()?;
    let rules = Rules::read(alloc, ALL.as_bytes()).ok()?;
    let readers = Roots::read(alloc, ROOTS.as_bytes()).ok()?;
    let mut device = Recorder::new(alloc, ToyDevice::new(1, 1, 5));
    let mut node = started(alloc, &store, &rules, &readers, &mut device)?;
    let asked = hex::decode(alloc, ASKED.as_bytes()).ok()?;
    let reply = node
        .take(&Fragment::Data(Octets::from_vec(asked)), &mut device)
        .ok()?;
    let is_answered = is_sent(alloc, licence, reply.message.as_ref()?.as_slice())?;
    let goes_on = reply.ended.is_none() && node.close() == WalletEnd::PeerEnded;
    let is_released = are_places(node.released(), &RELEASED) && is_announced(alloc, &node);
    let tape = device.tape(0).ok()?;
    let is_asked = has_digest(alloc, tape.as_slice(), licence.tape);
    Some(is_answered && goes_on && is_released && is_asked)
}

#[test]
fn licences_that_are_shown(rt: HostRuntime) {
    for licence in &LICENCES {
        assert!(rt;
            is_shown(rt.alloc(), licence) == Some(true),
            "{}",
            licence.reply
        );
    }
}

//! The longest message that a wallet takes: 65,536 fragments besides the last one, and 1,048,576 bytes.

use crate::sessions::{is_reply, started};
use crate::stores::{ALL, ROOTS};
use ble_fragments::JoinFault;
use cert_view::Roots;
use consent::Rules;
use doc_store::{EMPTY_STORE, Store};
use key_device::{Recorder, ToyDevice};
use mdoc_outside::{Fragment, Octets};
use std::alloc::Global;
use std::test::*;
use wallet_core::{WalletEnd, WalletNode};

const TOO_LONG: WalletEnd = WalletEnd::BadFragment(JoinFault::TooLong);

/// SessionData with status 11 (ISO/IEC 18013-5, table 20): a message isn't of its form.
const FORM: &str = "a1667374617475730b";

/// Fragments, how many of them come with a leading byte 1, and the reply to the last one.
struct Long {
    /// How many fragments come that are not the last one of a message.
    count: usize,
    /// How many zero bytes each of them has after its leading byte.
    zeros: usize,
    /// The last fragment.
    last: &'static [u8],
    /// The reply to it, in hexadecimal digits, if any.
    message: Option<&'static str>,
    /// How the session has ended then.
    ended: WalletEnd,
}

const LONG: [Long; 6] = [
    Long {
        count: 65_536,
        zeros: 1,
        last: b"\x01\x00",
        message: None,
        ended: TOO_LONG,
    },
    Long {
        count: 65_536,
        zeros: 1,
        last: b"\x00\x00",
        message: None,
        ended: TOO_LONG,
    },
    Long {
        count: 65_535,
        zeros: 1,
        last: b"\x00\x00",
        message: Some(FORM),
        ended: WalletEnd::MessageForm,
    },
    Long {
        count: 16,
        zeros: 65_536,
        last: b"\x01\x00",
        message: None,
        ended: TOO_LONG,
    },
    Long {
        count: 16,
        zeros: 65_536,
        last: b"\x00\x00",
        message: None,
        ended: TOO_LONG,
    },
    Long {
        count: 16,
        zeros: 65_536,
        last: b"\x00",
        message: Some(FORM),
        ended: WalletEnd::MessageForm,
    },
];

/// A fragment of zero bytes that isn't the last one of its message.
fn part_of(alloc: Global, zeros: usize) -> Option<Fragment> {
    let mut bytes = vec![in alloc; 1].ok()?;
    let zeros = vec![in alloc; 0; zeros].ok()?;
    bytes.extend_from_slice(&zeros).ok()?;
    Some(Fragment::Data(Octets::from_vec(bytes)))
}

/// Whether a wallet takes so many equal fragments without a word.
fn takes(
    node: &mut WalletNode<'_>,
    device: &mut Recorder<ToyDevice>,
    part: &Fragment,
    count: usize,
) -> Option<bool> {
    for _ in 0..count {
        let reply = node.take(part, device).ok()?;
        if reply.message.is_some() || reply.ended.is_some() {
            return Some(false);
        }
    }
    Some(true)
}

/// Whether the long message comes to what is said.
fn is_long(alloc: Global, long: &Long) -> Option<bool> {
    let store = Store::read(alloc, &EMPTY_STORE).ok()?;
    let rules = Rules::read(alloc, ALL.as_bytes()).ok()?;
    let readers = Roots::read(alloc, ROOTS.as_bytes()).ok()?;
    let mut device = Recorder::new(alloc, ToyDevice::new(1, 1, 5));
    let mut node = started(alloc, &store, &rules, &readers, &mut device)?;
    let part = part_of(alloc, long.zeros)?;
    let last = Fragment::Data(Octets::copy_of(alloc, long.last).ok()?);
    let are_taken = takes(&mut node, &mut device, &part, long.count)?;
    let reply = node.take(&last, &mut device).ok()?;
    let is_answered = is_reply(alloc, &reply, long.message, Some(long.ended));
    Some(are_taken && is_answered && node.close() == long.ended)
}

#[test]
fn longest_messages(rt: HostRuntime) {
    for long in &LONG {
        assert!(rt;
            is_long(rt.alloc(), long) == Some(true),
            "{} {} {:?}",
            long.count,
            long.zeros,
            long.last
        );
    }
}

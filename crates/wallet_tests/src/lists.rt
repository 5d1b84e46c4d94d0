//! Every list of up to three fragments out of nine: the node, which takes them one by one, and a plain wallet, which takes
//! the list as a whole, do the same.

use crate::sessions::{Comes, bytes_of, dice_of, fragment_of, setup_of, started};
use crate::stores::{ALL, BOTH, ROOTS};
use crate::texts::{FIRST_HALF, NEXT, SECOND_HALF, WHOLE};
use cert_view::Roots;
use consent::Rules;
use doc_store::Store;
use key_device::{Recorder, ToyDevice};
use mdoc_outside::{Fragment, Octets};
use plain_wallet::{PlainRun, plain_wallet};
use std::alloc::Global;
use std::test::*;
use wallet_core::{ReleasedAt, WalletEnd, WalletNode};

/// A whole request, its two halves, a second request, no CBOR, a leading byte that means nothing, and the values of State.
const FRAGMENTS: [Comes; 9] = [
    Comes::Data(WHOLE),
    Comes::Data(FIRST_HALF),
    Comes::Data(SECOND_HALF),
    Comes::Data(NEXT),
    Comes::Data("00ff"),
    Comes::Data("02aa"),
    Comes::State(1),
    Comes::State(2),
    Comes::State(3),
];

/// The fragments that the three decimal digits of a number name, where 0 names none.
fn list_of(alloc: Global, number: usize) -> Option<Vec<Fragment>> {
    let mut list = Vec::new(alloc);
    for digit in [number / 100, number / 10 % 10, number % 10] {
        let Some(place) = digit.checked_sub(1) else {
            continue;
        };
        let fragment = fragment_of(alloc, FRAGMENTS.get(place)?)?;
        list.push(fragment).ok()?;
    }
    Some(list)
}

/// The messages that the node answers to fragments, one by one.
fn replies_to(
    alloc: Global,
    node: &mut WalletNode<'_>,
    device: &mut Recorder<ToyDevice>,
    fragments: &[Fragment],
) -> Option<Vec<Octets>> {
    let mut replies = Vec::new(alloc);
    for fragment in fragments {
        let reply = node.take(fragment, device).ok()?;
        if let Some(message) = reply.message {
            replies.push(message).ok()?;
        }
    }
    Some(replies)
}

/// Whether messages are the same, one by one.
fn are_equal(these: &[Octets], others: &[Octets]) -> bool {
    if these.len() != others.len() {
        return false;
    }
    for (this, other) in these.iter().zip(others) {
        if this.as_slice() != other.as_slice() {
            return false;
        }
    }
    true
}

/// Whether places are the same, one by one.
fn are_places(these: &[ReleasedAt], others: &[ReleasedAt]) -> bool {
    if these.len() != others.len() {
        return false;
    }
    for (this, other) in these.iter().zip(others) {
        let is_named = this.ns.as_slice() == other.ns.as_slice()
            && this.name.as_slice() == other.name.as_slice();
        if this.document != other.document || !is_named {
            return false;
        }
    }
    true
}

/// Whether the node did what the plain wallet does.
fn is_run(node: &WalletNode<'_>, replies: &[Octets], end: WalletEnd, run: &PlainRun) -> bool {
    node.announced().engagement == run.engagement.as_slice()
        && are_equal(replies, run.replies.as_slice())
        && are_places(node.released(), run.released.as_slice())
        && end == run.end
}

/// Whether the node and a plain wallet do the same with fragments, and ask the same.
fn are_alike(
    alloc: Global,
    store: &Store<'_>,
    rules: &Rules,
    readers: &Roots,
    fragments: &[Fragment],
) -> Option<bool> {
    let mut device = Recorder::new(alloc, ToyDevice::new(1, 1, 5));
    let mut node = started(alloc, store, rules, readers, &mut device)?;
    let replies = replies_to(alloc, &mut node, &mut device, fragments)?;
    let end = node.close();
    let setup = setup_of(store, rules, readers);
    let mut other = Recorder::new(alloc, ToyDevice::new(1, 1, 5));
    let run = plain_wallet(alloc, &setup, fragments, &mut dice_of(alloc), &mut other).ok()?;
    let asked = device.tape(0).ok()?;
    let are_asked = asked.as_slice() == other.tape(0).ok()?.as_slice();
    Some(are_asked && is_run(&node, &replies, end, &run))
}

#[test]
fn every_list_of_up_to_three_of_nine(rt: HostRuntime) {
    let alloc = rt.alloc();
    let bytes = bytes_of(alloc, BOTH).unwrap_or(Vec::new(alloc));
    let store = Store::read(alloc, &bytes);
    let rules = Rules::read(alloc, ALL.as_bytes());
    let readers = Roots::read(alloc, ROOTS.as_bytes());
    let (Ok(store), Ok(rules), Ok(readers)) = (&store, &rules, &readers) else {
        assert!(rt; false, "what the wallet is made with");
        return;
    };
    for number in 0..1000 {
        let fragments = list_of(alloc, number);
        let is_same = match &fragments {
            Some(list) => are_alike(alloc, store, rules, readers, list),
            None => None,
        };
        assert!(rt; is_same == Some(true), "{number}");
    }
}

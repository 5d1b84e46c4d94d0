//! A session that is run, and what is printed of it.

use crate::case::Case;
use cert_view::Roots;
use consent::Rules;
use doc_store::Store;
use key_device::{Recorder, ReplayDevice};
use mdoc_outside::{CountDice, Dealt, Fragment};
use std::alloc::{AllocError, Global};
use wallet_core::{ReleasedAt, Reply, WalletNode, WalletSetup};

/// The size of the fragments that are sent.
const SIZE: u16 = 512;

/// The moment of each session, in seconds since 1970.
const MOMENT: i64 = 1_893_456_000;

/// The first of the words that are drawn.
const WORD: u64 = 0x1112131415161718;

type Device = Recorder<ReplayDevice>;

/// What is printed of a session.
pub(crate) fn session_line(alloc: Global, case: &Case) -> Result<String, AllocError> {
    let name = case.name.as_str();
    match what_happens(alloc, case) {
        Some(done) => format!(in alloc; "{name}{done}"),
        None => format!(in alloc; "{name} | not run"),
    }
}

/// What the wallet does in a session, in words; nothing where it can't be made, or memory is wanting.
fn what_happens(alloc: Global, case: &Case) -> Option<String> {
    let store = Store::read(alloc, &case.store).ok()?;
    let rules = Rules::read(alloc, &case.rules).ok()?;
    let readers = Roots::read(alloc, &case.readers).ok()?;
    let mut device = Recorder::new(alloc, ReplayDevice::read(alloc, &case.tape).ok()?);
    let setup = WalletSetup {
        store: &store,
        choice: &[0, 0],
        rules: &rules,
        readers: &readers,
        size: SIZE,
        moment: MOMENT,
        nfc: false,
        request: None,
    };
    let mut dice = Dealt::new(alloc, CountDice::new(WORD));
    let mut node = WalletNode::new(alloc, setup, &mut dice, &mut device).ok()?;
    let mut line = String::new(alloc);
    add_announced(alloc, &mut line, &node)?;
    run(alloc, &mut line, &mut node, &mut device, &case.fragments)?;
    add_released(alloc, &mut line, node.released())?;
    let asked = device.talk().len();
    line.push_str(format!(in alloc; " | {asked} asked").ok()?.as_str())
        .ok()?;
    Some(line)
}

/// Gives a wallet the fragments, closes it, and gives it the fragments once more.
fn run(
    alloc: Global,
    line: &mut String,
    node: &mut WalletNode<'_>,
    device: &mut Device,
    fragments: &[Fragment],
) -> Option<()> {
    add_replies(alloc, line, node, device, fragments)?;
    let end = node.close();
    line.push_str(format!(in alloc; " | closed {end:?}").ok()?.as_str())
        .ok()?;
    add_replies(alloc, line, node, device, fragments)?;
    let end = node.close();
    line.push_str(format!(in alloc; " | closed {end:?}").ok()?.as_str())
        .ok()
}

/// Adds what a wallet announces, and its size.
fn add_announced(alloc: Global, line: &mut String, node: &WalletNode<'_>) -> Option<()> {
    let announced = node.announced();
    let digits = hex::encode(alloc, announced.engagement).ok()?;
    let by = if announced.select.is_none() {
        "by a code"
    } else {
        "by contact"
    };
    let size = node.size();
    line.push_str(format!(in alloc; " | {digits} {by} {size}").ok()?.as_str())
        .ok()
}

/// Gives a wallet fragments, and adds what it replies to each.
fn add_replies(
    alloc: Global,
    line: &mut String,
    node: &mut WalletNode<'_>,
    device: &mut Device,
    fragments: &[Fragment],
) -> Option<()> {
    for fragment in fragments {
        let reply = node.take(fragment, device).ok()?;
        add_reply(alloc, line, &reply)?;
    }
    Some(())
}

/// Adds the message of a reply, and how the session has ended.
fn add_reply(alloc: Global, line: &mut String, reply: &Reply) -> Option<()> {
    line.push_str(" | ").ok()?;
    match &reply.message {
        Some(message) => line
            .push_str(hex::encode(alloc, message.as_slice()).ok()?.as_str())
            .ok()?,
        None => line.push('-').ok()?,
    }
    match reply.ended {
        Some(end) => line
            .push_str(format!(in alloc; " {end:?}").ok()?.as_str())
            .ok(),
        None => line.push_str(" -").ok(),
    }
}

/// Adds the places of what was released.
fn add_released(alloc: Global, line: &mut String, places: &[ReleasedAt]) -> Option<()> {
    line.push_str(" |").ok()?;
    for place in places {
        let ns = str::from_utf8(place.ns.as_slice()).ok()?;
        let name = str::from_utf8(place.name.as_slice()).ok()?;
        let document = place.document;
        line.push_str(format!(in alloc; " {document}/{ns}/{name}").ok()?.as_str())
            .ok()?;
    }
    Some(())
}

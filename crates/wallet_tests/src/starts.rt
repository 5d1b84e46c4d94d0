//! Sessions that don't start, where the device or the dice fail.

use crate::sessions::device_of;
use crate::stores::{ALL, ROOTS};
use crate::texts::FRESH;
use cert_view::Roots;
use consent::Rules;
use doc_store::{EMPTY_STORE, Store};
use mdoc_outside::{Dealt, ListDice};
use std::alloc::Global;
use std::test::*;
use wallet_core::{StartFault, WalletNode, WalletSetup};

/// Dice and a device, and the fault by which a wallet doesn't start with them, if any.
struct Start {
    /// How many words the dice deal.
    words: usize,
    /// What the device is asked, with what it tells.
    tape: &'static [&'static str],
    /// How many questions are asked.
    questions: usize,
    /// The fault.
    fault: Option<StartFault>,
}

const STARTS: [Start; 6] = [
    Start {
        words: 0,
        tape: &[FRESH],
        questions: 0,
        fault: Some(StartFault::Dice),
    },
    Start {
        words: 1,
        tape: &[FRESH],
        questions: 0,
        fault: Some(StartFault::Dice),
    },
    Start {
        words: 1,
        tape: &[],
        questions: 0,
        fault: Some(StartFault::Dice),
    },
    Start {
        words: 2,
        tape: &["fresh -> failed\n"],
        questions: 1,
        fault: Some(StartFault::Device),
    },
    Start {
        words: 2,
        tape: &[],
        questions: 1,
        fault: Some(StartFault::Device),
    },
    Start {
        words: 2,
        tape: &[FRESH],
        questions: 1,
        fault: None,
    },
];

/// Whether a wallet starts with these as is said.
fn is_start(alloc: Global, start: &Start) -> Option<bool> {
    let store = Store::read(alloc, &EMPTY_STORE).ok()?;
    let rules = Rules::read(alloc, ALL.as_bytes()).ok()?;
    let readers = Roots::read(alloc, ROOTS.as_bytes()).ok()?;
    let setup = WalletSetup {
        store: &store,
        choice: &[],
        rules: &rules,
        readers: &readers,
        size: 20,
        moment: 0,
        nfc: false,
        request: None,
    };
    let words = vec![in alloc; 7; start.words].ok()?;
    let mut dice = Dealt::new(alloc, ListDice::new(words, Vec::new(alloc)));
    let mut device = device_of(alloc, start.tape)?;
    let fault = WalletNode::new(alloc, setup, &mut dice, &mut device).err();
    let are_asked = device.talk().len() == start.questions && dice.dealt().len() == start.words;
    Some(are_asked && fault == start.fault)
}

#[test]
fn devices_and_dice_that_fail(rt: HostRuntime) {
    for start in &STARTS {
        assert!(rt;
            is_start(rt.alloc(), start) == Some(true),
            "{} {:?}",
            start.words,
            start.tape
        );
    }
}

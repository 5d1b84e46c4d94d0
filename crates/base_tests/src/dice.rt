//! Dice, and the words that they deal.

use mdoc_outside::{CountDice, Dealt, Dice, DiceFault, ListDice, OsDice, words_gained_were_dealt};
use std::alloc::Global;

// Draws so many words, and counts the draws that failed.
fn undealt<R: Dice>(dice: &mut R, draws: u64) -> u64 {
    let mut failed = 0u64;
    for _ in 0..draws {
        if dice.next() == Err(DiceFault::Failed) {
            failed = failed.saturating_add(1);
        }
    }
    failed
}

// The calls that fail of ten over the words 1 to 6, how many fail, and the words dealt.
const CASES: [(&[u64], u64, &[u64]); 6] = [
    (&[], 4, &[1, 2, 3, 4, 5, 6]),
    (&[0], 4, &[1, 2, 3, 4, 5, 6]),
    (&[2, 0, 9], 4, &[1, 2, 3, 4, 5, 6]),
    (&[9, 9, 10], 4, &[1, 2, 3, 4, 5, 6]),
    (&[0, 1, 2, 3, 4, 5, 6], 7, &[1, 2, 3]),
    (&[0, 1, 2, 3, 4, 5, 6, 7, 8, 9], 10, &[]),
];

// Whether ten draws from dice of which those calls fail are as wanted.
fn deal(alloc: Global, fails: &[u64], failed: u64, words: &[u64]) -> Option<bool> {
    let given = [1, 2, 3, 4, 5, 6].to_vec(alloc).ok()?;
    let list = ListDice::new(given, fails.to_vec(alloc).ok()?);
    let mut dice = Dealt::new(alloc, list);
    Some(undealt(&mut dice, 10) == failed && dice.dealt() == words)
}

// Whether dice that count deal on after the greatest word.
fn count_on(alloc: Global) -> bool {
    let mut dice = Dealt::new(alloc, CountDice::new(u64::MAX - 1));
    undealt(&mut dice, 4) == 0 && dice.dealt() == [u64::MAX - 1, u64::MAX, 0, 1].as_slice()
}

#[test]
fn dice_deal_what_they_are_given(rt: HostRuntime) {
    for (fails, failed, words) in &CASES {
        assert!(rt;
            deal(rt.alloc(), fails, *failed, words) == Some(true),
            "at {fails:?}"
        );
    }
    assert!(rt; count_on(rt.alloc()));
    words_gained_were_dealt();
}

// Whether words are four that differ.
fn are_four(words: &[u64]) -> bool {
    match words {
        [a, b, c, d] => a != b || b != c || c != d,
        _ => false,
    }
}

#[test]
fn the_system_deals_words(rt: HostRuntime) {
    let mut dice = Dealt::new(rt.alloc(), OsDice::new(&rt));
    assert!(rt; undealt(&mut dice, 4) == 0);
    assert!(rt; are_four(dice.dealt()));
}

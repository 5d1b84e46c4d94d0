//! The salts of items (ISO/IEC 18013-5, 9.1.2.5), from words of dice.

ghost use Rattle.std.specs.Prelude.{◌≡◌, [], length, IfOk, Ok};
ghost use Rattle.mdoc_outside.specs.Dealt.{dealt, inner};
ghost use Rattle.mdoc_outside.specs.Faults.{HasCause};
ghost use Rattle.mdoc_outside.specs.GaveWords.{GaveWords};
ghost use Rattle.mdoc_outside.specs.declared.dice_fault.DiceFault.TheVariants as dices;
ghost use Rattle.key_device.specs.Ends.{dice_end};
ghost use Rattle.key_device.specs.Plan.{FollowsAll};
ghost use Rattle.issuing.specs.Questions.{word, salt, salt_of, salts};

use mdoc_outside::{Dealt, Dice, DiceFault, Rows};
use std::alloc::Global;

/// The next word.
#[tactic(auto, using(key_device::proofs::AllPlanLemmas::all_exits))]
fn next_word<R: Dice>(dice: &mut Dealt<R>) -> Result<u64, DiceFault>
    ensures asked { FollowsAll word [] [] (dealt dice.old) [] [] (dealt dice.new) (dice_end (λ drawn. Ok drawn) result) }
    ensures gave { GaveWords R.gives R.faults dice.old dice.new }
    ensures cause { HasCause dices.Failed dices.Memory (R.faults (inner dice.old)) (R.faults (inner dice.new)) result }
{
    dice.next()
}

/// Four words as bytes, each with its highest byte first.
fn salt_of(first: u64, second: u64, third: u64, fourth: u64) -> [u8; 32]
    ensures { result ≡ salt_of first second third fourth }
{
    let [a, b, c, d, e, f, g, h] = first.to_be_bytes();
    let [i, j, k, l, m, n, o, p] = second.to_be_bytes();
    let [q, r, s, t, u, v, w, x] = third.to_be_bytes();
    let [y, z, aa, ab, ac, ad, ae, af] = fourth.to_be_bytes();
    [
        a, b, c, d, e, f, g, h, i, j, k, l, m, n, o, p, q, r, s, t, u, v, w, x, y, z, aa, ab, ac,
        ad, ae, af,
    ]
}

/// The next salt.
fn draw_salt<R: Dice>(dice: &mut Dealt<R>) -> Result<[u8; 32], DiceFault>
    ensures asked { FollowsAll salt [] [] (dealt dice.old) [] [] (dealt dice.new) (dice_end (λ drawn. Ok drawn) result) }
    ensures gave { GaveWords R.gives R.faults dice.old dice.new }
    ensures cause { HasCause dices.Failed dices.Memory (R.faults (inner dice.old)) (R.faults (inner dice.new)) result }
{
    let first = match next_word(dice) {
        Ok(word) => word,
        Err(fault) => return Err(fault),
    };
    let second = match next_word(dice) {
        Ok(word) => word,
        Err(fault) => return Err(fault),
    };
    let third = match next_word(dice) {
        Ok(word) => word,
        Err(fault) => return Err(fault),
    };
    match next_word(dice) {
        Ok(fourth) => Ok(salt_of(first, second, third, fourth)),
        Err(fault) => Err(fault),
    }
}

/// So many salts, each of four new words.
#[tactic(auto, unfolding(crate::specs::Questions::salts))]
pub fn draw_salts<R: Dice>(
    alloc: Global,
    count: usize,
    dice: &mut Dealt<R>,
) -> Result<Rows<[u8; 32]>, DiceFault>
    ensures asked { FollowsAll (salts count) [] [] (dealt dice.old) [] [] (dealt dice.new) (dice_end (λ drawn. Ok drawn) result) }
    ensures gave { GaveWords R.gives R.faults dice.old dice.new }
    ensures cause { HasCause dices.Failed dices.Memory (R.faults (inner dice.old)) (R.faults (inner dice.new)) result }
    ensures count { IfOk result (λ salts. length salts ≡ count) }
{
    let mut salts = Vec::new(alloc);
    for place in 0..count {
        match salts.reserve(1) {
            Ok(()) => {}
            Err(_) => return Err(DiceFault::Memory),
        }
        match draw_salt(dice) {
            Ok(salt) => salts.push_reserved(salt),
            Err(fault) => return Err(fault),
        }
    }
    Ok(Rows::from_vec(salts))
}

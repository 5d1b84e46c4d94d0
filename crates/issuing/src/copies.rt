//! The copies of a document.

ghost use Rattle.cbor_view.specs.Shortest.{array_bytes};
ghost use Rattle.mdoc_outside.specs.Dealt.{dealt, inner as dice_of};
ghost use Rattle.mdoc_outside.specs.GaveWords.{GaveWords};
ghost use Rattle.issue_spec.specs.Spec.{fields};
ghost use Rattle.key_device.specs.Gave.{Gave};
ghost use Rattle.key_device.specs.Plan.{FollowsAll};
ghost use Rattle.key_device.specs.Recording.{inner, talk};
ghost use Rattle.issuing.specs.Ends.{Cause, end_at};
ghost use Rattle.issuing.specs.Appending.{Appends};
ghost use Rattle.issuing.specs.Copies.{copies, copy};

use crate::issue_fault::IssueFault;
use crate::salts::draw_salts;
use crate::signed_copy::signed_copy;
use crate::signer::Signer;
use cbor_write::Build;
use issue_spec::Spec;
use key_device::{KeyDevice, Recorder, ask_fresh};
use mdoc_outside::{Dealt, Dice};
use std::alloc::Global;

/// Appends one copy: a new key of the holder's device, a salt of four words for each element, and the signature of the
/// issuer's device.
fn issue_copy<D: KeyDevice, E: KeyDevice, R: Dice>(
    alloc: Global,
    build: &mut Build,
    spec: &Spec,
    signer: &Signer,
    holder: &mut Recorder<D>,
    issuer: &mut Recorder<E>,
    dice: &mut Dealt<R>,
) -> Result<(), IssueFault>
    ensures asked { Appends (λ bytes. bytes) (λ came. FollowsAll (copy (fields spec.now) signer.now) (talk holder.old) (talk issuer.old) (dealt dice.old)
        (talk holder.new) (talk issuer.new) (dealt dice.new) (end_at came)) build.old build.new result }
    ensures holder { Gave D.gives D.unasked D.faults holder.old holder.new }
    ensures issuer { Gave E.gives E.unasked E.faults issuer.old issuer.new }
    ensures words { GaveWords R.gives R.faults dice.old dice.new }
    ensures cause { Cause (D.faults (inner holder.old)) (D.faults (inner holder.new)) (E.faults (inner issuer.old)) (E.faults (inner issuer.new))
        (R.faults (dice_of dice.old)) (R.faults (dice_of dice.new)) result }
{
    let made = match ask_fresh::<_, IssueFault>(holder) {
        Ok(made) => made,
        Err(fault) => return Err(IssueFault::from(fault)),
    };
    let salts = match draw_salts(alloc, spec.elements().len(), dice) {
        Ok(salts) => salts,
        Err(fault) => return Err(IssueFault::from(fault)),
    };
    match signed_copy(alloc, build, spec, signer, &made, salts.as_slice(), issuer) {
        Ok(()) => Ok(()),
        Err(fault) => Err(IssueFault::from(fault)),
    }
}

/// Appends the array of the copies that a spec asks for, made one after the other. No more is held of a copy, while it
/// is made, than its salts, the digests of its items, and its signature with what is signed.
pub fn issue_copies<D: KeyDevice, E: KeyDevice, R: Dice>(
    alloc: Global,
    build: &mut Build,
    spec: &Spec,
    signer: &Signer,
    holder: &mut Recorder<D>,
    issuer: &mut Recorder<E>,
    dice: &mut Dealt<R>,
) -> Result<(), IssueFault>
    ensures asked { Appends array_bytes (λ came. FollowsAll (copies (fields spec.now) signer.now) (talk holder.old) (talk issuer.old) (dealt dice.old)
        (talk holder.new) (talk issuer.new) (dealt dice.new) (end_at came)) build.old build.new result }
    ensures holder { Gave D.gives D.unasked D.faults holder.old holder.new }
    ensures issuer { Gave E.gives E.unasked E.faults issuer.old issuer.new }
    ensures words { GaveWords R.gives R.faults dice.old dice.new }
    ensures cause { Cause (D.faults (inner holder.old)) (D.faults (inner holder.new)) (E.faults (inner issuer.old)) (E.faults (inner issuer.new))
        (R.faults (dice_of dice.old)) (R.faults (dice_of dice.new)) result }
{
    let count = spec.copies();
    match build.array(count) {
        Ok(()) => {}
        Err(_) => return Err(IssueFault::Memory),
    }
    for place in 0..count {
        match issue_copy(alloc, build, spec, signer, holder, issuer, dice) {
            Ok(()) => {}
            Err(fault) => return Err(fault),
        }
    }
    Ok(())
}

//! The whole wallet.

ghost use Rattle.key_device.specs.Gave.{Gave};
ghost use Rattle.key_device.specs.Recording.{inner, talk};
ghost use Rattle.mdoc_outside.specs.Dealt.{dealt, inner as dice_of};
ghost use Rattle.mdoc_outside.specs.GaveWords.{GaveWords};
ghost use Rattle.wallet_answer.specs.SetupView.{setup_of};
ghost use Rattle.plain_wallet.specs.Running.{Cause, Runs, RunsFrom};

use crate::PlainRun;
use crate::message_list::join_messages;
use crate::plain_run::run_of;
use crate::rounds::session_rounds;
use key_device::{KeyDevice, Recorder};
use mdoc_outside::{Dealt, Dice, Fragment, Memory};
use std::alloc::Global;
use wallet_answer::WalletSetup;
use wallet_core::{StartFault, Started, start};

/// What a session that was started comes to.
#[tactic(auto, using(key_device::proofs::GaveLemmas::gave_exits))]
fn run_from<D: KeyDevice>(
    alloc: Global,
    setup: &WalletSetup<'_>,
    started: Started,
    fragments: &[Fragment],
    device: &mut Recorder<D>,
) -> Result<PlainRun, Memory>
    ensures run { RunsFrom (setup_of setup.now) started fragments.now (talk device.old) (talk device.new) result }
    ensures gave { Gave D.gives D.unasked D.faults device.old device.new }
{
    let Started { engagement, state } = started;
    let list = join_messages(alloc, fragments)?;
    let rounds = session_rounds(alloc, setup, state, &list.messages, device)?;
    run_of(alloc, engagement, rounds, list.ending)
}

/// What a wallet comes to over all the fragments that came, after which the link was closed (ISO/IEC 18013-5, 8.2.1,
/// 8.3.3.1.1 and 9.1.1). It refuses where the device or the dice fail before the session was started, and for want of memory
/// at any time.
#[tactic(auto, using(key_device::proofs::GaveLemmas::gave_exits))]
pub fn plain_wallet<D: KeyDevice, R: Dice>(
    alloc: Global,
    setup: &WalletSetup<'_>,
    fragments: &[Fragment],
    dice: &mut Dealt<R>,
    device: &mut Recorder<D>,
) -> Result<PlainRun, StartFault>
    ensures asked { Runs (setup_of setup.now) fragments.now (talk device.old) (talk device.new) (dealt dice.old) (dealt dice.new) result }
    ensures gave { Gave D.gives D.unasked D.faults device.old device.new }
    ensures words { GaveWords R.gives R.faults dice.old dice.new }
    ensures cause { Cause (D.faults (inner device.old)) (D.faults (inner device.new)) (R.faults (dice_of dice.old)) (R.faults (dice_of dice.new)) result }
{
    match start(alloc, dice, device) {
        Ok(started) => match run_from(alloc, setup, started, fragments, device) {
            Ok(run) => Ok(run),
            Err(_) => Err(StartFault::Memory),
        },
        Err(fault) => Err(fault),
    }
}

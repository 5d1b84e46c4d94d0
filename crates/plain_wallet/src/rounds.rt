//! The rounds of a session, by recursion on its messages.

ghost use Rattle.std.specs.List.{All};
ghost use Rattle.key_device.specs.Gave.{Gave};
ghost use Rattle.key_device.specs.Recording.{talk};
ghost use Rattle.wallet_answer.specs.SetupView.{setup_of};
ghost use Rattle.wallet_core.specs.Rounds.{IsWithin};
ghost use Rattle.plain_wallet.specs.Rounds.{AreRounds, AreRoundsAfter, IsShort};

use crate::plain_round::{PlainRound, with_round};
use key_device::{KeyDevice, Recorder};
use mdoc_outside::{Memory, Octets};
use session_seal::WalletEngaged;
use std::alloc::Global;
use wallet_answer::WalletSetup;
use wallet_core::{AfterRound, Round, first_round, next_round};

/// The rounds of the messages after a round, up to the first that ends the session: none where that round ended it.
#[tactic(auto, using(key_device::proofs::GaveLemmas::gave_exits))]
pub(crate) fn rounds_after<D: KeyDevice>(
    alloc: Global,
    setup: &WalletSetup<'_>,
    after: AfterRound,
    messages: &[Octets],
    device: &mut Recorder<D>,
) -> Result<Vec<PlainRound>, Memory>
    requires within { IsWithin after }
    requires short { All IsShort messages.now }
    ensures rounds { AreRoundsAfter (setup_of setup.now) after messages.now (talk device.old) (talk device.new) result }
    ensures gave { Gave D.gives D.unasked D.faults device.old device.new }
{
    let AfterRound::Open(session) = after else {
        return Ok(Vec::new(alloc));
    };
    let [message, later @ ..] = messages else {
        return Ok(Vec::new(alloc));
    };
    match next_round(alloc, setup, session, message.as_slice(), device) {
        Ok(round) => {
            let Round {
                reply,
                places,
                after,
            } = round;
            let ended = after.end();
            let rounds = rounds_after(alloc, setup, after, later, device)?;
            with_round(
                PlainRound {
                    reply,
                    places,
                    ended,
                },
                rounds,
            )
        }
        Err(_) => Err(Memory),
    }
}

/// The rounds of all messages of a session, up to the first that ends it.
#[tactic(auto, using(key_device::proofs::GaveLemmas::gave_exits))]
pub(crate) fn session_rounds<D: KeyDevice>(
    alloc: Global,
    setup: &WalletSetup<'_>,
    state: WalletEngaged,
    messages: &[Octets],
    device: &mut Recorder<D>,
) -> Result<Vec<PlainRound>, Memory>
    requires { All IsShort messages.now }
    ensures rounds { AreRounds (setup_of setup.now) state messages.now (talk device.old) (talk device.new) result }
    ensures gave { Gave D.gives D.unasked D.faults device.old device.new }
{
    let [message, later @ ..] = messages else {
        return Ok(Vec::new(alloc));
    };
    match first_round(alloc, setup, state, message.as_slice(), device) {
        Ok(round) => {
            let Round {
                reply,
                places,
                after,
            } = round;
            let ended = after.end();
            let rounds = rounds_after(alloc, setup, after, later, device)?;
            with_round(
                PlainRound {
                    reply,
                    places,
                    ended,
                },
                rounds,
            )
        }
        Err(_) => Err(Memory),
    }
}

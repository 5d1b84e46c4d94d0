//! The round of a later message.

ghost use Rattle.std.specs.Prelude.{◌<◌, ◌≤◌, ◌^◌, Ok, length};
ghost use Rattle.key_device.specs.Gave.{Gave};
ghost use Rattle.key_device.specs.Recording.{talk};
ghost use Rattle.wallet_answer.specs.SetupView.{setup_of};
ghost use Rattle.wallet_model.specs.Round.{round_of};
ghost use Rattle.wallet_core.specs.Rounds.{IsNextRound, IsRound};

use crate::ending::end_round;
use crate::replying::reply_to;
use crate::round::Round;
use crate::round_room::Room;
use crate::want_of_memory::WantOfMemory;
use key_device::{KeyDevice, Recorder};
use session_seal::{Kept, Stop, WalletAsked, WalletOpen};
use std::alloc::Global;
use wallet_answer::WalletSetup;

/// The reply to the text of a later message. Where memory is wanting before a question, the state is that before the message.
#[tactic(auto, using(key_device::proofs::GaveLemmas::gave_exits))]
fn reply_or_back<D: KeyDevice>(
    alloc: Global,
    setup: &WalletSetup<'_>,
    asked: WalletAsked,
    text: &[u8],
    device: &mut Recorder<D>,
) -> Result<Round, WantOfMemory<WalletOpen>>
    requires later { 1 < asked.place }
    requires place { asked.place ≤ 1000 }
    ensures round { IsRound (round_of (setup_of setup.now) (Ok (asked, text.now))) asked (talk device.old) (talk device.new) result }
    ensures gave { Gave D.gives D.unasked D.faults device.old device.new }
{
    let count = device.talk().len();
    match reply_to(alloc, setup, asked, text, device) {
        Ok(round) => Ok(round),
        Err(kept) => {
            let Kept { state } = kept;
            if device.talk().len() == count {
                Err(WantOfMemory::Back(state.back()))
            } else {
                Err(WantOfMemory::Spent)
            }
        }
    }
}

/// The round of a later message, SessionData (ISO/IEC 18013-5, 9.1.1.4): it is opened at the session's place, and its text is
/// answered. A message that isn't opened, and one with a status, ends the session.
#[tactic(auto, using(key_device::proofs::GaveLemmas::gave_exits))]
pub fn next_round<D: KeyDevice>(
    alloc: Global,
    setup: &WalletSetup<'_>,
    state: WalletOpen,
    message: &[u8],
    device: &mut Recorder<D>,
) -> Result<Round, WantOfMemory<WalletOpen>>
    requires later { 1 < state.place }
    requires place { state.place ≤ 1000 }
    requires short { length message.now ≤ 2 ^ 24 }
    ensures round { IsNextRound (setup_of setup.now) state message.now (talk device.old) (talk device.new) result }
    ensures gave { Gave D.gives D.unasked D.faults device.old device.new }
{
    let Ok(room) = Room::new(alloc) else {
        return Err(WantOfMemory::Back(state));
    };
    match state.open_next(alloc, message) {
        Ok((asked, text)) => reply_or_back(alloc, setup, asked, text.as_slice(), device),
        Err(Stop::Ended(ended)) => Ok(end_round(alloc, room, &ended)),
        Err(Stop::Back(state)) => Err(WantOfMemory::Back(state)),
        Err(Stop::Spent) => Err(WantOfMemory::Spent),
    }
}

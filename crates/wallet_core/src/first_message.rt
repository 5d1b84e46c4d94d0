//! The round of the first message.

ghost use Rattle.std.specs.Prelude.{◌≤◌, ◌^◌, length};
ghost use Rattle.key_device.specs.Gave.{Gave};
ghost use Rattle.key_device.specs.Recording.{talk};
ghost use Rattle.wallet_answer.specs.SetupView.{setup_of};
ghost use Rattle.wallet_core.specs.Rounds.{IsFirstRound};

use crate::ending::end_round;
use crate::replying::reply_to;
use crate::round::Round;
use crate::round_room::Room;
use crate::want_of_memory::WantOfMemory;
use key_device::{KeyDevice, Recorder};
use session_seal::{Stop, WalletEngaged};
use std::alloc::Global;
use wallet_answer::WalletSetup;

/// The round of the first message, SessionEstablishment (ISO/IEC 18013-5, 9.1.1.4): the device is asked for the session's
/// secret, and the text is answered. A message that isn't opened ends the session.
#[tactic(auto, using(key_device::proofs::GaveLemmas::gave_exits))]
pub fn first_round<D: KeyDevice>(
    alloc: Global,
    setup: &WalletSetup<'_>,
    state: WalletEngaged,
    message: &[u8],
    device: &mut Recorder<D>,
) -> Result<Round, WantOfMemory<WalletEngaged>>
    requires { length message.now ≤ 2 ^ 24 }
    ensures round { IsFirstRound (setup_of setup.now) state message.now (talk device.old) (talk device.new) result }
    ensures gave { Gave D.gives D.unasked D.faults device.old device.new }
{
    let Ok(room) = Room::new(alloc) else {
        return Err(WantOfMemory::Back(state));
    };
    match state.establish(alloc, message, device) {
        Ok((asked, text)) => match reply_to(alloc, setup, asked, text.as_slice(), device) {
            Ok(round) => Ok(round),
            Err(_) => Err(WantOfMemory::Spent),
        },
        Err(Stop::Ended(ended)) => Ok(end_round(alloc, room, &ended)),
        Err(Stop::Back(state)) => Err(WantOfMemory::Back(state)),
        Err(Stop::Spent) => Err(WantOfMemory::Spent),
    }
}

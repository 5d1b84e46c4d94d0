//! The reply to a text that was opened.

ghost use Rattle.std.specs.Prelude.{◌≡◌, ◌≤◌, IfOk, length};
ghost use Rattle.key_device.specs.Gave.{Gave};
ghost use Rattle.key_device.specs.Plan.{Follows};
ghost use Rattle.key_device.specs.PlanSteps.{mapped};
ghost use Rattle.key_device.specs.Recording.{talk};
ghost use Rattle.wallet_answer.specs.AnswerView.{answer_seen};
ghost use Rattle.wallet_answer.specs.SetupView.{setup_of};
ghost use Rattle.wallet_model.specs.Answer.{answer};
ghost use Rattle.wallet_model.specs.Round.{answered_round};
ghost use Rattle.wallet_core.specs.RoundView.{IsKept, IsNext, round_came, round_seen};

use crate::after_round::AfterRound;
use crate::round::Round;
use key_device::{KeyDevice, Recorder};
use session_seal::{Kept, WalletAsked, WalletEnd};
use std::alloc::Global;
use wallet_answer::{Answer, WalletSetup, answer};

/// The place of the last answer of a session.
const LAST_PLACE: u32 = 1000;

/// The round of an answer, which is sealed at the place of its message.
fn seal_answer(
    alloc: Global,
    session: WalletAsked,
    answer: Answer,
) -> Result<Round, Kept<WalletAsked>>
    requires place { session.place ≤ 1000 }
    requires short { length answer.text ≤ 1048000 }
    ensures round { IfOk result (λ r. round_seen r ≡ answered_round session (answer_seen answer)) }
    ensures next { IsNext session result }
    ensures kept { IsKept session result }
{
    let last = session.place() == LAST_PLACE;
    let Answer { text, places } = answer;
    let (open, message) = match session.seal_next(alloc, text.as_slice(), last) {
        Ok(sealed) => sealed,
        Err(kept) => return Err(kept),
    };
    let reply = Some(message);
    if last {
        return Ok(Round {
            reply,
            places,
            after: AfterRound::Ended(WalletEnd::Thousand),
        });
    }
    Ok(Round {
        reply,
        places,
        after: AfterRound::Open(open),
    })
}

/// The reply to a text that was opened: the answer, sealed at the place of the message. The thousandth reply has status 20 and
/// ends the session (ISO/IEC 18013-5, 9.1.1.4). Where memory is wanting the state is handed back, though questions may have
/// been asked.
#[tactic(auto, using(key_device::proofs::PlanStepLemmas::mapped_exits, key_device::proofs::GaveLemmas::gave_exits))]
pub fn reply_to<D: KeyDevice>(
    alloc: Global,
    setup: &WalletSetup<'_>,
    session: WalletAsked,
    text: &[u8],
    device: &mut Recorder<D>,
) -> Result<Round, Kept<WalletAsked>>
    requires { session.place ≤ 1000 }
    ensures asked { Follows (mapped (answered_round session) (answer (setup_of setup.now) session text.now)) (talk device.old) (talk device.new) (round_came result) }
    ensures next { IsNext session result }
    ensures kept { IsKept session result }
    ensures gave { Gave D.gives D.unasked D.faults device.old device.new }
{
    match answer(alloc, setup, &session, text, device) {
        Ok(answer) => seal_answer(alloc, session, answer),
        Err(_) => Err(Kept { state: session }),
    }
}

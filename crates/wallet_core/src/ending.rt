//! The round of a message that ends the session.

ghost use Rattle.std.specs.Prelude.{◌≡◌, ◌≤◌, IfSome, length};
ghost use Rattle.wallet_model.specs.Round.{ended_round};
ghost use Rattle.wallet_core.specs.RoundView.{round_seen};

use crate::after_round::AfterRound;
use crate::round::Round;
use crate::round_room::Room;
use mdoc_outside::Octets;
use session_seal::WalletEnded;
use std::alloc::Global;

/// The last message of a session that has ended, if it has one.
fn last_message(room: Room, ended: &WalletEnded) -> Option<Octets>
    requires { IfSome ended.now.last_message (λ m. length m ≤ 9) }
    ensures { result ≡ ended.now.last_message }
{
    match ended.last_message() {
        Some(message) => Some(room.with(message)),
        None => None,
    }
}

/// The round of a message that isn't opened: it ends the session, and nothing is released. It takes no memory.
pub(crate) fn end_round(alloc: Global, room: Room, ended: &WalletEnded) -> Round
    requires { IfSome ended.now.last_message (λ m. length m ≤ 9) }
    ensures { round_seen result ≡ ended_round ended.now }
{
    Round {
        reply: last_message(room, ended),
        places: Vec::new(alloc),
        after: AfterRound::Ended(ended.check()),
    }
}

//! Where a session is.

ghost use Rattle.std.specs.Prelude.{◌≡◌};
ghost use Rattle.ble_fragments.specs.declared.ending.Ending.TheVariants.{Bad, Peer};
ghost use Rattle.wallet_core.specs.Rounds.{IsWithin};
ghost use Rattle.wallet_model.specs.Taking.{list_end};
ghost use Rattle.wallet_core.specs.StateView.{after_state, over_end, state_seen};

use crate::after_round::AfterRound;
use crate::waiting::Waiting;
use ble_fragments::{Ending, JoinFault};
use session_seal::{WalletEnd, WalletEngaged};

/// Where a session is.
#[derive(Drop)]
pub(crate) enum State {
    /// Before the first message.
    Engaged(WalletEngaged),
    /// Between an answer and the next message.
    Open(Waiting),
    /// It has ended.
    Ended(WalletEnd),
    /// Lost: memory was wanting after a question.
    Spent,
}

impl State {
    /// Where a session is after a round.
    pub fn after(after: AfterRound) -> State
        requires { IsWithin after }
        ensures { state_seen result ≡ after_state after }
    {
        match after {
            AfterRound::Open(open) => State::Open(Waiting::new(open)),
            AfterRound::Ended(end) => State::Ended(end),
        }
    }

    /// The end of a session that doesn't go on.
    pub fn over(&self) -> Option<WalletEnd>
        ensures { result ≡ over_end (state_seen self.now) }
    {
        match self {
            State::Engaged(_) => None,
            State::Open(_) => None,
            State::Ended(end) => Some(*end),
            State::Spent => Some(WalletEnd::Spent),
        }
    }

    /// The end of a session by a reader that went away: before or after an answer.
    fn peer_end(&self) -> Option<WalletEnd>
        ensures { result ≡ list_end (state_seen self.now) Peer }
    {
        match self {
            State::Engaged(_) => Some(WalletEnd::NoSession),
            State::Open(_) => Some(WalletEnd::PeerEnded),
            State::Ended(_) => None,
            State::Spent => None,
        }
    }

    /// The end of a session by a bad fragment.
    fn bad_end(&self, fault: JoinFault) -> Option<WalletEnd>
        ensures { result ≡ list_end (state_seen self.now) (Bad fault) }
    {
        match self {
            State::Engaged(_) => Some(WalletEnd::BadFragment(fault)),
            State::Open(_) => Some(WalletEnd::BadFragment(fault)),
            State::Ended(_) => None,
            State::Spent => None,
        }
    }

    /// The end of a session by how the fragments end.
    pub fn list_end(&self, ending: Ending) -> Option<WalletEnd>
        ensures { result ≡ list_end (state_seen self.now) ending }
    {
        match ending {
            Ending::Open => None,
            Ending::Peer => self.peer_end(),
            Ending::Bad(fault) => self.bad_end(fault),
        }
    }
}

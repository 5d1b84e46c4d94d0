//! Where a session is after a round.

ghost use Rattle.std.specs.Prelude.{◌≡◌};
ghost use Rattle.wallet_core.specs.RoundView.{end_after};

use session_seal::{WalletEnd, WalletOpen};

/// Where a session is after a round.
#[derive(Drop)]
pub enum AfterRound {
    /// It goes on: the wallet waits for the next message.
    Open(WalletOpen),
    /// It has ended.
    Ended(WalletEnd),
}

impl AfterRound {
    /// How the session ended, if it did.
    pub fn end(&self) -> Option<WalletEnd>
        ensures { result ≡ end_after self.now }
    {
        match self {
            AfterRound::Open(_) => None,
            AfterRound::Ended(end) => Some(*end),
        }
    }
}

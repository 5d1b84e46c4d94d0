//! A session between an answer and the next message.

use session_seal::WalletOpen;
use std::marker::Model;

/// A session that has answered, and waits for the next message, one of the second to the thousandth.
#[derive(Drop)]
pub(crate) struct Waiting {
    session: WalletOpen,
}

impl Model for Waiting {
    ghost use Rattle.std.specs.Prelude.{◌<◌, ◌≤◌};
    ghost use Rattle.session_seal.specs.Wallet.{WalletSession};

    ghost Value = { WalletSession };

    ghost view = { λ w. w.session };

    ghost invariant = { λ w. (1 < w.session.place) × (w.session.place ≤ 1000) };
}

impl Waiting {
    ghost use Rattle.std.specs.Prelude.{◌≡◌, ◌<◌, ◌≤◌};

    /// The session, at the place of the next message.
    pub fn new(session: WalletOpen) -> Waiting
        requires later { 1 < session.place }
        requires within { session.place ≤ 1000 }
        ensures { result ≡ session }
    {
        Waiting { session }
    }

    /// The session, whose place is one of those.
    pub fn into_open(self) -> WalletOpen
        ensures same { result ≡ self }
        ensures later { 1 < result.place }
        ensures within { result.place ≤ 1000 }
    {
        let Waiting { session } = self;
        session
    }
}

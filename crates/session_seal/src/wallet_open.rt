//! The wallet between an answer and the next message.

ghost use Rattle.std.specs.Prelude.{◌≡◌, ◌≤◌, ◌^◌, length};
ghost use Rattle.session_seal.specs.Stopping.{Opens};
ghost use Rattle.session_seal.specs.Wallet.{wallet_opens};

use crate::sealed_data::SealedData;
use crate::wallet_session::WalletSession;
use crate::{SessionData, Stop, WalletAsked, WalletEnd, WalletEnded};
use mdoc_outside::Octets;
use std::alloc::Global;
use std::marker::Model;

/// A wallet that has answered, and waits for the next message.
#[derive(Drop)]
pub struct WalletOpen {
    session: WalletSession,
}

impl Model for WalletOpen {
    ghost use Rattle.session_seal.specs.Wallet.{WalletSession};

    ghost Value = { WalletSession };

    ghost view = { λ s. s.session };
}

impl WalletOpen {
    /// The state of a session.
    pub(crate) fn of(session: WalletSession) -> WalletOpen
        ensures { result ≡ session }
    {
        WalletOpen { session }
    }

    /// The place, among the reader's messages, of the one that is opened next.
    pub fn place(&self) -> u32
        ensures { result ≡ self.now.place }
    {
        self.session.place
    }

    /// Opens the reader's message at this place (ISO/IEC 18013-5, 9.1.1.4). A message outside its form ends the
    /// session with status 11, one with a status ends it, and one that doesn't open ends it with status 10.
    #[tactic(auto, unfolding(crate::specs::Wallet::wallet_opens))]
    pub fn open_next(
        self,
        alloc: Global,
        message: &[u8],
    ) -> Result<(WalletAsked, Octets), Stop<WalletOpen, WalletEnded>>
        requires place { self.place ≤ 1000 }
        requires short { length message.now ≤ 2 ^ 24 }
        ensures { Opens self (wallet_opens self message.now) result }
    {
        let Some(message) = SessionData::read(message) else {
            return Err(Stop::Ended(WalletEnded::form()));
        };
        if let Some(status) = message.status {
            return Err(Stop::Ended(WalletEnded::silent(WalletEnd::PeerStatus(status))));
        }
        let Some(sealed) = message.sealed else {
            return Err(Stop::Ended(WalletEnded::form()));
        };
        let Ok(sealed) = SealedData::copy_of(alloc, sealed) else {
            return Err(Stop::Back(self));
        };
        let WalletOpen { session } = self;
        match session.open(sealed) {
            Ok((session, text)) => Ok((WalletAsked::of(session), text)),
            Err(ended) => Err(Stop::Ended(ended)),
        }
    }
}

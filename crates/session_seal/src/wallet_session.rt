//! What the wallet keeps of a session.

ghost use Rattle.std.specs.Prelude.{◌≡◌, ◌≤◌, ◌<◌, ◌^◌, length};
ghost use Rattle.session_seal.specs.Wallet.{wallet_text};

use crate::places::iv;
use crate::sealed_data::SealedData;
use crate::session_keys::SessionKeys;
use crate::{SessionStatus, WalletEnd, WalletEnded};
use key_device::Point;
use mdoc_outside::{End, Octets};
use std::marker::Model;

/// What the wallet keeps of a session, with the place of the message that is opened or sealed next.
#[derive(Drop)]
pub(crate) struct WalletSession {
    pub transcript: Octets,
    pub reader_key: Point,
    pub keys: SessionKeys,
    pub place: u32,
}

impl Model for WalletSession {
    ghost use Rattle.session_seal.specs.Wallet.{WalletSession as Session};

    ghost Value = { Session };

    ghost view = { λ s. record { transcript = s.transcript; reader_key = s.reader_key; keys = s.keys; place = s.place } };
}

impl WalletSession {
    /// Opens a sealed text of the reader at the session's place. It takes no memory.
    pub fn open(self, sealed: SealedData) -> Result<(WalletSession, Octets), WalletEnded>
        requires { length sealed ≤ 2 ^ 24 }
        ensures { result ≡ wallet_text self sealed }
    {
        match sealed.open(&self.keys.reader, &iv(End::Reader, self.place)) {
            Some(text) => Ok((self, text)),
            None => Err(WalletEnded::with_status(WalletEnd::Sealed, SessionStatus::Encryption)),
        }
    }
}

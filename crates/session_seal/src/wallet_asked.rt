//! The wallet between a message and its answer.

ghost use Rattle.std.specs.Prelude.{◌≡◌, ◌≤◌, ◌<◌, ◌^◌, length};
ghost use Rattle.session_seal.specs.Stopping.{Seals};
ghost use Rattle.session_seal.specs.Wallet.{next_place, wallet_seals};

use crate::data_message::seal_data;
use crate::places::iv;
use crate::wallet_session::WalletSession;
use crate::{Kept, WalletOpen};
use key_device::Point;
use mdoc_outside::{End, Octets};
use std::alloc::Global;
use std::marker::Model;

/// A wallet that has opened a message, and has to answer it.
#[derive(Drop)]
pub struct WalletAsked {
    session: WalletSession,
}

impl Model for WalletAsked {
    ghost use Rattle.session_seal.specs.Wallet.{WalletSession};

    ghost Value = { WalletSession };

    ghost view = { λ s. s.session };
}

impl WalletAsked {
    /// The state of a session.
    pub(crate) fn of(session: WalletSession) -> WalletAsked
        ensures { result ≡ session }
    {
        WalletAsked { session }
    }

    /// The place, among the wallet's messages, of the answer.
    pub fn place(&self) -> u32
        ensures { result ≡ self.now.place }
    {
        self.session.place
    }

    /// The bytes of SessionTranscript (ISO/IEC 18013-5, 9.1.5.1).
    pub fn transcript(&self) -> &[u8]
        ensures { result.now ≡ self.now.transcript }
    {
        self.session.transcript.as_slice()
    }

    /// The reader's ephemeral key.
    pub fn reader_key(&self) -> &Point
        ensures { result.now ≡ self.now.reader_key }
    {
        &self.session.reader_key
    }

    /// The state that `open_next` took to this one. It takes no memory.
    pub fn back(self) -> WalletOpen
        requires { 1 < self.place }
        ensures { result ≡ self }
    {
        let WalletAsked { session } = self;
        WalletOpen::of(session)
    }

    /// The answer: SessionData with the text sealed at this place, in the buffer that is answered, and with
    /// status 20 where it is the last one (ISO/IEC 18013-5, 9.1.1.4).
    #[tactic(auto, unfolding(crate::specs::Wallet::wallet_seals))]
    pub fn seal_next(
        self,
        alloc: Global,
        text: &[u8],
        last: bool,
    ) -> Result<(WalletOpen, Octets), Kept<WalletAsked>>
        requires place { self.place ≤ 1000 }
        requires short { length text.now ≤ 2 ^ 24 }
        ensures { Seals self (next_place self, wallet_seals self text.now last) result }
    {
        let iv = iv(End::Wallet, self.session.place);
        let Ok(message) = seal_data(alloc, &self.session.keys.device, &iv, text, last) else {
            return Err(Kept { state: self });
        };
        let WalletAsked { mut session } = self;
        session.place += 1;
        Ok((WalletOpen::of(session), message))
    }
}

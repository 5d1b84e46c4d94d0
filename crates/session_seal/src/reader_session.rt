//! What the reader keeps of a session.

ghost use Rattle.std.specs.Prelude.{◌≡◌, ◌≤◌, ◌^◌, length};
ghost use Rattle.session_seal.specs.Places.{iv, opened_at};
ghost use Rattle.mdoc_outside.specs.declared.end.End.TheVariants.{Reader, Wallet};

use crate::places::iv;
use crate::sealed_data::SealedData;
use crate::session_keys::SessionKeys;
use mdoc_outside::{End, Octets};
use std::marker::Model;

/// What the reader keeps of a session, with the place of the message that is opened or sealed next.
#[derive(Drop)]
pub(crate) struct ReaderSession {
    pub transcript: Octets,
    pub keys: SessionKeys,
    pub place: u32,
}

impl Model for ReaderSession {
    ghost use Rattle.session_seal.specs.Reader.{ReaderSession as Session};

    ghost Value = { Session };

    ghost view = { λ s. record { transcript = s.transcript; keys = s.keys; place = s.place } };
}

impl ReaderSession {
    /// The IV of the reader's message at the session's place.
    pub fn iv(&self) -> [u8; 12]
        ensures { result ≡ iv Reader self.now.place }
    {
        iv(End::Reader, self.place)
    }

    /// Opens a sealed text of the wallet at the session's place. It takes no memory.
    pub fn open(&self, sealed: SealedData) -> Option<Octets>
        requires { length sealed ≤ 2 ^ 24 }
        ensures { result ≡ opened_at self.now.keys.device Wallet self.now.place sealed }
    {
        sealed.open(&self.keys.device, &iv(End::Wallet, self.place))
    }
}

//! What the wallet makes ready before it asks its device.

ghost use Rattle.std.specs.Prelude.{◌≡◌, ◌≤◌, ◌^◌, length};
ghost use Rattle.session_seal.specs.Keys.{keys, salt};
ghost use Rattle.session_seal.specs.Wallet.{wallet_text};

use crate::WalletEnded;
use crate::sealed_data::SealedData;
use crate::session_keys::SessionKeys;
use crate::wallet_session::WalletSession;
use key_device::Point;
use mdoc_outside::Octets;

/// What the wallet makes ready of the first message before it asks its device, so that nothing after the question
/// takes memory.
#[derive(Drop)]
pub(crate) struct FirstMessage {
    pub transcript: Octets,
    pub salt: [u8; 32],
    pub reader_key: Point,
    pub sealed: SealedData,
}

impl FirstMessage {
    /// Opens the text with the keys of a secret, at place 1. It takes no memory.
    pub fn open(self, secret: &[u8; 32]) -> Result<(WalletSession, Octets), WalletEnded>
        requires short { length self.sealed ≤ 2 ^ 24 }
        requires salt { self.salt ≡ salt self.transcript }
        ensures { result ≡ wallet_text (record { transcript = self.transcript; reader_key = self.reader_key; keys = keys secret.now self.transcript; place = 1 }) self.sealed }
    {
        let FirstMessage {
            transcript,
            salt,
            reader_key,
            sealed,
        } = self;
        let session = WalletSession {
            transcript,
            reader_key,
            keys: SessionKeys::new(secret, &salt),
            place: 1,
        };
        session.open(sealed)
    }
}

//! What a wallet answers to a fragment.

use mdoc_outside::Octets;
use session_seal::WalletEnd;

/// What a wallet answers to a fragment.
#[derive(Drop)]
pub struct Reply {
    /// The message that is to be sent, if any.
    pub message: Option<Octets>,
    /// How the session ended, if it has.
    pub ended: Option<WalletEnd>,
}

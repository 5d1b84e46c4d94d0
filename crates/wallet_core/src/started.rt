//! What was started.

use mdoc_outside::Octets;
use session_seal::WalletEngaged;

/// A session that was started: what is announced, and the wallet before the first message.
#[derive(Drop)]
pub struct Started {
    /// The bytes of the engagement.
    pub engagement: Octets,
    /// The wallet, which waits for the first message.
    pub state: WalletEngaged,
}

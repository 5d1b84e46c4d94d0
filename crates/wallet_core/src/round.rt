//! What a wallet does with one message.

use crate::after_round::AfterRound;
use mdoc_outside::Octets;
use wallet_model::ReleasedAt;

/// What a wallet does with one message (ISO/IEC 18013-5, 9.1.1.4).
#[derive(Drop)]
pub struct Round {
    /// The message that is sent, if any.
    pub reply: Option<Octets>,
    /// The places of the items that count as released, in the order asked.
    pub places: Vec<ReleasedAt>,
    /// Where the session is then.
    pub after: AfterRound,
}

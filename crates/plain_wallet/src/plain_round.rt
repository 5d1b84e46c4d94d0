//! What a round came to.

ghost use Rattle.std.specs.Prelude.{◌≡◌, ◌∷◌, IfOk};
ghost use Rattle.round_model.specs.Rounds.{end_of_rounds};

use mdoc_outside::{Memory, Octets};
use session_seal::WalletEnd;
use std::marker::Model;
use wallet_model::ReleasedAt;

/// What a round came to.
#[derive(Drop)]
pub(crate) struct PlainRound {
    /// The message that is sent, if any.
    pub reply: Option<Octets>,
    /// The places of what is released.
    pub places: Vec<ReleasedAt>,
    /// How the session ended, if it did.
    pub ended: Option<WalletEnd>,
}

impl Model for PlainRound {
    ghost use Rattle.wallet_model.specs.Round.{WalletRound};

    ghost Value = { WalletRound };

    ghost view = { λ r. record { reply = r.reply; entries = r.places.items; ended = r.ended } };
}

/// A round, and then those after it.
pub(crate) fn with_round(
    round: PlainRound,
    mut later: Vec<PlainRound>,
) -> Result<Vec<PlainRound>, Memory>
    ensures { IfOk result (λ all. all.items ≡ round ∷ later.items) }
{
    later.insert(0, round)?;
    Ok(later)
}

/// How the first of the rounds that ends the session ends it.
pub(crate) fn end_of_rounds(rounds: &[PlainRound]) -> Option<WalletEnd>
    ensures { result ≡ end_of_rounds rounds.now }
{
    for round in rounds {
        if let Some(end) = round.ended {
            return Some(end);
        }
    }
    None
}

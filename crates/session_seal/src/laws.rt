//! What holds of the definitions alone. Each is the contract of a function that does nothing.

ghost use Rattle.std.specs.Prelude.{◌≡◌, [], ◌∷◌};
ghost use Rattle.mdoc_outside.specs.declared.end.End.TheVariants.{Reader, Wallet};
ghost use Rattle.session_seal.specs.Places.{iv};
ghost use Rattle.session_seal.specs.Laws.{AnswerIsOpened, DataIsRead, EstablishmentIsRead, FirstIsOpened, RequestIsOpened};

/// A message that was written is read as it was given.
pub fn written_messages_are_read()
    ensures session_data { DataIsRead }
    ensures establishment { EstablishmentIsRead }
{}

/// Of a wallet and a reader with one engagement and one handover whose devices told one secret, the wallet opens
/// what the reader seals first.
pub fn first_request_is_opened()
    ensures { FirstIsOpened }
{}

/// Where both have one session, each opens what the other one seals next.
pub fn next_messages_are_opened()
    ensures request { RequestIsOpened }
    ensures answer { AnswerIsOpened }
{}

/// The IVs of the first messages, written out (ISO/IEC 18013-5, 9.1.1.5).
#[tactic(auto, unfolding(crate::specs::Places::iv))]
pub fn first_ivs()
    ensures reader { iv Reader 1 ≡ 0 ∷ 0 ∷ 0 ∷ 0 ∷ 0 ∷ 0 ∷ 0 ∷ 0 ∷ 0 ∷ 0 ∷ 0 ∷ 1 ∷ [] }
    ensures wallet { iv Wallet 1 ≡ 0 ∷ 0 ∷ 0 ∷ 0 ∷ 0 ∷ 0 ∷ 0 ∷ 1 ∷ 0 ∷ 0 ∷ 0 ∷ 1 ∷ [] }
{}

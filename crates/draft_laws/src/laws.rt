//! What holds of the definitions alone. Each is the contract of a function that does nothing.

ghost use Rattle.draft_laws.specs.AsWallet.{AreAnsweredAlike};

/// What the core that `draft` prints answers of a document is what a wallet which shows the same copies releases to that
/// reader: the same items in order, the same missing elements, and the same places of the store.
pub fn draft_answers_as_wallet()
    ensures { AreAnsweredAlike }
{}

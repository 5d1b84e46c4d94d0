//! What holds of the definitions alone. Each is the contract of a function that does nothing.

ghost use Rattle.wallet_laws.specs.Exactly.{IsReleasedExactly};
ghost use Rattle.wallet_laws.specs.Least.{AgreementIsLeast};
ghost use Rattle.wallet_laws.specs.Rounds.{AreRoundsExact};

/// Whatever the device tells, the places that an answer releases are exactly those of the items of its response, one for
/// one and in order; where a general error stands in the response's stead, of the items that were chosen for it.
pub fn released_exactly()
    ensures { IsReleasedExactly }
{}

/// A round of a session enters exactly the places of its answer, and its reply seals this answer's response; a message
/// that isn't opened releases nothing.
pub fn rounds_release_exactly()
    ensures { AreRoundsExact }
{}

/// Stores of equal outlines agree up to the places that are released exactly where equal items are chosen of them: so
/// the agreement of two stores asks no more than the answer tells.
pub fn agreement_is_least()
    ensures { AgreementIsLeast }
{}

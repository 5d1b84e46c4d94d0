// Laws of the wallet.
ghost use Rattle.wallet_model.specs.Agreement.{AgreeImplies};
ghost use Rattle.wallet_model.specs.Laws.{AreStoresAlike, IsDeniedAbsent, IsReleasedOnly};

/// Each item of a response is the item, held by the copy that is shown, of a wish of a document that the opened text
/// asks for, which the holder's rules allow to the reader that is known for that document.
pub fn released_only()
    ensures { IsReleasedOnly }
{}

/// Whatever fragments come, the questions that a wallet asks and what it announces, replies and releases, and its end,
/// are those of each wallet whose store agrees with its own up to the places that were released.
pub fn two_stores()
    ensures { AreStoresAlike }
{}

/// The same where an element that no rule approves is held in one of the stores alone: what is denied can't be told from
/// what is absent. Stores that agree do so in this sense too.
pub fn denied_is_absent()
    ensures alike { IsDeniedAbsent }
    ensures weaker { AgreeImplies }
{}

// Laws of the verdict on a document.
ghost use Rattle.verdict_laws.specs.Conditions.{AreAcceptedWhereAllHold, AreRefusedByFirstFailure};

/// A document is refused by a check exactly where that check fails under what the device told, and those before it in
/// their order hold.
pub fn refused_document_fails_first()
    ensures { AreRefusedByFirstFailure }
{}

/// A document is accepted exactly where all of its checks hold.
pub fn accepted_document_holds_all()
    ensures { AreAcceptedWhereAllHold }
{}

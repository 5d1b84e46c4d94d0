// Laws of the verdict.
ghost use Rattle.verdict_laws.specs.FirstCheck.{AreAcceptedFailingNone, AreRefusedByFirst};

/// An element is refused by a check exactly where that check fails and none before it in their order does.
pub fn refused_element_fails_first()
    ensures { AreRefusedByFirst }
{}

/// An element is accepted exactly where none of its checks fails.
pub fn accepted_element_fails_none()
    ensures { AreAcceptedFailingNone }
{}

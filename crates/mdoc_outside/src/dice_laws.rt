// Laws of the definitions that contracts of dice cite.
ghost use Rattle.mdoc_outside.specs.GaveWords.{TakesFromTheList, FailsWhereSpent, CountsOn};

/// The words gained of a list are its first ones and leave the rest, and a list of which no call is
/// planned to fail has failed only where it is spent. The words gained of a dice that counts are
/// those from its next word on.
pub fn words_gained_were_dealt()
    ensures first { TakesFromTheList }
    ensures spent { FailsWhereSpent }
    ensures counted { CountsOn }
{}

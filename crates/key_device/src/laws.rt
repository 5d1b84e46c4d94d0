// Laws of the definitions that contracts cite.
ghost use Rattle.key_device.specs.PlanLaws.{IsOverItsTalk, BeginsWithItsTalk, FollowsWhereAllAsked, IsOverAll, IsOverAllUndealt, BeginsWithAll, FollowsAllWhereAsked, HasOneOutcome, NeverBothEnds, IsFollowedInParts, IsBegunInParts, IsUndealtInParts, IsWalkedInParts, IsCutInParts, StepsOnAtTheEnd};
ghost use Rattle.key_device.specs.WrittenTape.{IsReadAsWritten, AnswersAsTold};

/// A run that follows a plan is the same plan over each tape that begins with what the run's talk
/// gained: it asks the same questions, comes to the same outcome and leaves the rest of the tape.
/// Where memory was wanting, the plan's questions over the tape begin with those of the talk. And
/// where a plan over a tape asks exactly the tape's questions, the tape is a talk that follows it.
pub fn followed_plan_over_its_talk<A>()
    ensures same { IsOverItsTalk A }
    ensures begins { BeginsWithItsTalk A }
    ensures converse { FollowsWhereAllAsked A }
{}

/// The same of a plan of two devices and words, and of one that lacked a word.
pub fn followed_plan_over_its_sources<A>()
    ensures same { IsOverAll A }
    ensures undealt { IsOverAllUndealt A }
    ensures begins { BeginsWithAll A }
    ensures converse { FollowsAllWhereAsked A }
{}

/// The talks and the words that a run gained say whether it came to an outcome, and to which.
pub fn followed_plan_has_one_outcome<A>()
    ensures outcome { HasOneOutcome A }
    ensures ends { NeverBothEnds A }
{}

/// A run that follows a plan with another one after it follows the first one, and then the one
/// that its outcome calls for; where memory or a word was wanting, it may have been in the first.
pub fn plans_are_followed_in_parts<A, B>()
    ensures all { IsFollowedInParts A B }
    ensures all_begun { IsBegunInParts A B }
    ensures all_undealt { IsUndealtInParts A B }
    ensures walked { IsWalkedInParts A B }
    ensures cut { IsCutInParts A B }
{}

/// Steps over a list with one more at its end are those over the list, and then that one.
pub fn steps_go_on_at_the_end<S, X>()
    ensures { StepsOnAtTheEnd S X }
{}

/// A tape file that is written for exchanges is read as these, in order, and a tape answers the
/// questions of its exchanges by what was told.
pub fn written_tape_is_read()
    ensures read { IsReadAsWritten }
    ensures answers { AnswersAsTold }
{}

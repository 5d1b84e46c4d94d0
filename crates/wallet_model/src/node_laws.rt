// Laws of one fragment more.
ghost use Rattle.wallet_model.specs.Taking.{IsAfterEnd, IsAnswered, IsListEnd, IsQuiet, IsRoundEnd};

/// A node to which a fragment brings no message stands for the fragments with it: it keeps what came of a message, or ends
/// as the list of fragments does.
pub fn no_message_taken()
    ensures quiet { IsQuiet }
    ensures ended { IsListEnd }
{}

/// A node to which a fragment brings a message stands for the fragments with it, once the questions of the message's round
/// were asked: it is ended as the round says, or awaits the next message at the next place.
pub fn one_message_taken()
    ensures ended { IsRoundEnd }
    ensures answered { IsAnswered }
{}

/// A node that has ended stands for all fragments that come after the end: they have no reply, and the end stays.
pub fn after_the_end()
    ensures { IsAfterEnd }
{}

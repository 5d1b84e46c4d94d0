// Laws of the definitions of rounds.
ghost use Rattle.round_model.specs.RoundLaws.{AreRoundsAlike, AreSessionsAlike, IsOneMessageMore, IsOneRoundMore, RoundsGrow};

/// One message more at the end of a list adds its round, at its place, to those before it, where none of
/// them has ended the session; and so it is where the first message brings what both ends agree on.
/// Replies and entries of the rounds before stay as they were.
pub fn one_message_more<Message, Agreed, Entry, End>()
    ensures rounds { IsOneRoundMore Message Entry End }
    ensures session { IsOneMessageMore Message Agreed Entry End }
    ensures grow { RoundsGrow Message Entry End }
{}

/// Two ends that answer each message alike, as long as what they enter into the record of the session is
/// within a bound, answer all messages alike as long as all that they enter is. So what two wallets that
/// differ in what they don't release send and ask is the same.
pub fn ends_are_alike<Message, Agreed, Entry, End>()
    ensures rounds { AreRoundsAlike Message Entry End }
    ensures sessions { AreSessionsAlike Message Agreed Entry End }
{}

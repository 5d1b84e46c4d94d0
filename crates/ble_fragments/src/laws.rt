//! Laws of the definitions that the crate's contracts cite.

ghost use Rattle.ble_fragments.specs.CutLaws.{CountsPieces, JoinsCuts, PiecesJoin};
ghost use Rattle.ble_fragments.specs.Next.{ContinuesWhole};

/// Two lists of fragments, one after the other, come to what the first comes to, continued by the
/// second.
pub fn whole_continues()
    ensures { ContinuesWhole }
{}

/// Messages within the limits that were cut, one after the other, are joined to these messages,
/// whatever the size of the fragments.
pub fn cuts_are_joined()
    ensures { JoinsCuts }
{}

/// The pieces of a message, one after the other, are the message.
pub fn pieces_are_the_message()
    ensures { PiecesJoin }
{}

/// A message has as many pieces as its bytes fill, and at least one.
pub fn pieces_are_counted()
    ensures { CountsPieces }
{}

//! Laws of the node.

ghost use Rattle.wallet_core.specs.Sending.{SentGrows};

/// What is sent grows with each fragment that is taken by the fragments of the reply, if there is one.
pub fn sent_grows()
    ensures { SentGrows }
{}

// What a fragment came to.
use mdoc_outside::Octets;

/// What a joiner makes of a fragment.
#[derive(Drop)]
pub enum Fed {
    /// A piece of a message that is not whole yet.
    More,
    /// The last piece of this message.
    Message(Octets),
    /// The start of a session, which leaves the message as it is.
    Started,
    /// The end of a session.
    Ended,
}

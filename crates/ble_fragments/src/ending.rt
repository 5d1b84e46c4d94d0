// How a list of fragments ends.
use crate::JoinFault;

/// How the fragments so far end.
#[derive(Clone, Copy, Debug, PartialEq, Eq)]
pub enum Ending {
    /// More may follow.
    Open,
    /// The peer ended the session.
    Peer,
    /// A fragment was bad, by this fault.
    Bad(JoinFault),
}

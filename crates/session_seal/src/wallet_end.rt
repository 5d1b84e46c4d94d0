//! How a session of the wallet ends.

use ble_fragments::JoinFault;

/// How a session of the wallet ends.
#[derive(Clone, Copy, Debug, PartialEq, Eq)]
pub enum WalletEnd {
    /// A message is outside its form.
    MessageForm,
    /// The reader's message has this status.
    PeerStatus(u64),
    /// The device failed to agree with the reader's key, or refused it.
    Refused,
    /// A message doesn't open.
    Sealed,
    /// The answer to the thousandth message was sent.
    Thousand,
    /// The reader ended the connection after an answer.
    PeerEnded,
    /// The reader ended the connection before an answer.
    NoSession,
    /// A fragment is bad.
    BadFragment(JoinFault),
    /// Memory was wanting after a question was asked.
    Spent,
}

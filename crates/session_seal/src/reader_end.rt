//! How a session of the reader ends.

use ble_fragments::JoinFault;

/// How a session of the reader ends.
#[derive(Clone, Copy, Debug, PartialEq, Eq)]
pub enum ReaderEnd {
    /// The device failed.
    Device,
    /// The device refused the wallet's key.
    PointRefused,
    /// A message is outside its form.
    SessionForm,
    /// The wallet's message has this status.
    PeerStatus(u64),
    /// A message doesn't open.
    Sealed,
    /// An opened text isn't CBOR.
    ResponseCbor,
    /// An opened text is no response.
    ResponseForm,
    /// Each request has its answer.
    Done,
    /// The connection ended before that.
    NoSession,
    /// A fragment is bad.
    BadFragment(JoinFault),
    /// Memory was wanting after a question was asked.
    Spent,
}

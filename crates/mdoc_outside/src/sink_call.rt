// A call of a sink.
use crate::Octets;

/// A call of a `Sink` that did its work or failed, with what it was given.
#[derive(Drop)]
pub enum SinkCall {
    /// These bytes were put.
    Put(Octets),
    /// A put of these bytes failed.
    PutFailed(Octets),
}

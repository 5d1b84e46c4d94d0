// A call of a cabinet.
use crate::Octets;

/// A call of a `Cabinet` that did its work or failed, with what it was given and what it found.
#[derive(Drop)]
pub enum CabinetCall {
    /// The file of this name was read: its bytes, or `None` where there is no such file.
    Read(Octets, Option<Octets>),
    /// A read of this name failed.
    ReadFailed(Octets),
    /// These bytes were written under this name.
    Write(Octets, Octets),
    /// A write of these bytes under this name failed.
    WriteFailed(Octets, Octets),
}

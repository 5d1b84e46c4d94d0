// Bytes that are owned.
ghost use Rattle.std.specs.Prelude.{◌≡◌, ℕ, List, IfOk};

use crate::Memory;
use std::alloc::Global;
use std::marker::Model;

/// Owned bytes, which a contract sees as the list of them.
#[derive(Drop)]
pub struct Octets {
    bytes: Vec<u8>,
}

impl Model for Octets {
    ghost Value = { List ℕ };

    ghost view = { λ o. o.bytes.items };
}

impl Octets {
    /// A copy of the bytes; it refuses for want of memory alone.
    pub fn copy_of(alloc: Global, bytes: &[u8]) -> Result<Octets, Memory>
        ensures { IfOk result (λ copy. copy ≡ bytes.now) }
    {
        let bytes = bytes.to_vec(alloc)?;
        Ok(Octets { bytes })
    }

    /// The bytes of a `Vec`, without taking memory.
    pub fn from_vec(bytes: Vec<u8>) -> Octets
        ensures { result ≡ bytes.items }
    {
        Octets { bytes }
    }

    /// The bytes.
    pub fn as_slice(&self) -> &[u8]
        ensures { result.now ≡ self.now }
    {
        &self.bytes
    }
}

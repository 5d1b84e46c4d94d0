//! Room for the last message of a session.

ghost use Rattle.std.specs.Prelude.{◌≡◌, ◌≤◌, [], length, vec_capacity};

use mdoc_outside::{Memory, Octets};
use std::alloc::Global;

/// The bytes of a message that has a status alone.
const STATUS_BYTES: usize = 9;

/// Room for the last message of a session. It is made before a message is opened, since an end takes no memory.
#[derive(Drop)]
pub(crate) struct Room {
    bytes: Vec<u8>,
    ghost empty: { bytes.items ≡ [] },
    ghost large: { 9 ≤ vec_capacity bytes },
}

impl Room {
    /// New room.
    pub fn new(alloc: Global) -> Result<Room, Memory> {
        let bytes = Vec::with_capacity(alloc, STATUS_BYTES)?;
        Ok(Room { bytes })
    }

    /// The message, copied into the room. It takes no memory.
    pub fn with(self, message: &[u8]) -> Octets
        requires { length message.now ≤ 9 }
        ensures { result ≡ message.now }
    {
        let Room { mut bytes } = self;
        for byte in message {
            bytes.push_reserved(*byte);
        }
        Octets::from_vec(bytes)
    }
}

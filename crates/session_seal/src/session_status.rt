//! The statuses by which an end says that it ends the session.

ghost use Rattle.std.specs.Prelude.{◌≡◌};
ghost use Rattle.session_seal.specs.Stopping.{status_number};
ghost use Rattle.session_seal.specs.WrittenMessages.{status_bytes};

/// A status by which an end says that it ends the session (ISO/IEC 18013-5, table 20).
#[derive(Clone, Copy, Debug, PartialEq, Eq)]
pub enum SessionStatus {
    /// Error: session encryption.
    Encryption,
    /// Error: CBOR decoding.
    Decoding,
    /// Session termination.
    Termination,
}

impl SessionStatus {
    /// Its number in the standard.
    pub fn number(self) -> u8
        ensures { result ≡ status_number self }
    {
        match self {
            SessionStatus::Encryption => 10,
            SessionStatus::Decoding => 11,
            SessionStatus::Termination => 20,
        }
    }

    /// The message SessionData with this status alone. It takes no memory.
    #[tactic(auto, unfolding(crate::specs::WrittenMessages::session_data_bytes, cbor_maps::specs::Writing::map_head, cbor_maps::specs::Writing::key_bytes))]
    pub fn message(self) -> [u8; 9]
        ensures { result ≡ status_bytes (status_number self) }
    {
        let [a, b, c, d, e, f] = *b"status";
        [0xa1, 0x66, a, b, c, d, e, f, self.number()]
    }
}

//! The reader before its first message.

ghost use Rattle.std.specs.Prelude.{◌≡◌, ◌≤◌, ◌^◌, length};
ghost use Rattle.session_seal.specs.Reader.{reader_begins};
ghost use Rattle.session_seal.specs.Stopping.{Seals};

use crate::data_message::seal_establishment;
use crate::reader_session::ReaderSession;
use crate::{Kept, ReaderWaiting};
use mdoc_outside::Octets;
use std::alloc::Global;
use std::marker::Model;

/// A reader that has the keys of a session, and has to send its first message.
#[derive(Drop)]
pub struct ReaderReady {
    session: ReaderSession,
    reader_key: Octets,
}

impl Model for ReaderReady {
    ghost use Rattle.session_seal.specs.Reader.{ReaderFirst};

    ghost Value = { ReaderFirst };

    ghost view = { λ s. record { session = s.session; reader_key = s.reader_key } };
}

impl ReaderReady {
    /// The state of a session, with the bytes of the reader's own key.
    pub(crate) fn of(session: ReaderSession, reader_key: Octets) -> ReaderReady
        ensures { result ≡ record { session = session; reader_key = reader_key } }
    {
        ReaderReady {
            session,
            reader_key,
        }
    }

    /// The place, among the reader's messages, of the first one.
    pub fn place(&self) -> u32
        ensures { result ≡ self.now.session.place }
    {
        self.session.place
    }

    /// The bytes of SessionTranscript (ISO/IEC 18013-5, 9.1.5.1).
    pub fn transcript(&self) -> &[u8]
        ensures { result.now ≡ self.now.session.transcript }
    {
        self.session.transcript.as_slice()
    }

    /// The first message: SessionEstablishment with the reader's key and the text sealed at this place, in the
    /// buffer that is answered (ISO/IEC 18013-5, 9.1.1.4).
    #[tactic(auto, unfolding(crate::specs::Reader::reader_begins))]
    pub fn first(
        self,
        alloc: Global,
        text: &[u8],
    ) -> Result<(ReaderWaiting, Octets), Kept<ReaderReady>>
        requires { length text.now ≤ 2 ^ 24 }
        ensures { Seals self (self.session, reader_begins self text.now) result }
    {
        let iv = self.session.iv();
        let key = self.reader_key.as_slice();
        let Ok(message) = seal_establishment(alloc, key, &self.session.keys.reader, &iv, text)
        else {
            return Err(Kept { state: self });
        };
        let ReaderReady {
            session,
            reader_key: _,
        } = self;
        Ok((ReaderWaiting::of(session), message))
    }
}

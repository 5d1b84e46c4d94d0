//! The reader between an answer and the next request.

ghost use Rattle.std.specs.Prelude.{◌≡◌, ◌≤◌, ◌^◌, length};
ghost use Rattle.session_seal.specs.Reader.{reader_seals};
ghost use Rattle.session_seal.specs.Stopping.{Seals};

use crate::data_message::seal_data;
use crate::reader_session::ReaderSession;
use crate::{Kept, ReaderWaiting};
use mdoc_outside::Octets;
use std::alloc::Global;
use std::marker::Model;

/// A reader that has opened an answer, and may send the next request.
#[derive(Drop)]
pub struct ReaderAnswered {
    session: ReaderSession,
    status: Option<u64>,
}

impl Model for ReaderAnswered {
    ghost use Rattle.session_seal.specs.Reader.{ReaderAnswer};

    ghost Value = { ReaderAnswer };

    ghost view = { λ s. record { session = s.session; status = s.status } };
}

impl ReaderAnswered {
    /// The state of a session, with the status of the message that was opened.
    pub(crate) fn of(session: ReaderSession, status: Option<u64>) -> ReaderAnswered
        ensures { result ≡ record { session = session; status = status } }
    {
        ReaderAnswered { session, status }
    }

    /// The place, among the reader's messages, of the next request.
    pub fn place(&self) -> u32
        ensures { result ≡ self.now.session.place }
    {
        self.session.place
    }

    /// The bytes of SessionTranscript (ISO/IEC 18013-5, 9.1.5.1).
    pub fn transcript(&self) -> &[u8]
        ensures { result.now ≡ self.now.session.transcript }
    {
        self.session.transcript.as_slice()
    }

    /// The status of the message that was opened, with which the wallet ended the session.
    pub fn peer_status(&self) -> Option<u64>
        ensures { result ≡ self.now.status }
    {
        self.status
    }

    /// The next request: SessionData with the text sealed at this place, in the buffer that is answered (ISO/IEC
    /// 18013-5, 9.1.1.4).
    #[tactic(auto, unfolding(crate::specs::Reader::reader_seals))]
    pub fn seal_next(
        self,
        alloc: Global,
        text: &[u8],
    ) -> Result<(ReaderWaiting, Octets), Kept<ReaderAnswered>>
        requires place { self.session.place ≤ 1000 }
        requires short { length text.now ≤ 2 ^ 24 }
        ensures { Seals self (self.session, reader_seals self.session text.now) result }
    {
        let iv = self.session.iv();
        let Ok(message) = seal_data(alloc, &self.session.keys.reader, &iv, text, false) else {
            return Err(Kept { state: self });
        };
        let ReaderAnswered { session, status: _ } = self;
        Ok((ReaderWaiting::of(session), message))
    }
}

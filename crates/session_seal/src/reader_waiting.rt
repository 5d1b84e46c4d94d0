//! The reader between a request and its answer.

ghost use Rattle.std.specs.Prelude.{◌≡◌, ◌≤◌, ◌^◌, length};
ghost use Rattle.session_seal.specs.Reader.{ending_without_text, reader_opens};
ghost use Rattle.session_seal.specs.Stopping.{Opens};

use crate::reader_session::ReaderSession;
use crate::sealed_data::SealedData;
use crate::{ReaderAnswered, ReaderEnd, ReaderEnded, SessionData, SessionStatus, Stop};
use mdoc_outside::Octets;
use std::alloc::Global;
use std::marker::Model;

/// A reader that has sent a request, and waits for its answer.
#[derive(Drop)]
pub struct ReaderWaiting {
    session: ReaderSession,
}

impl Model for ReaderWaiting {
    ghost use Rattle.session_seal.specs.Reader.{ReaderSession};

    ghost Value = { ReaderSession };

    ghost view = { λ s. s.session };
}

impl ReaderWaiting {
    /// The state of a session.
    pub(crate) fn of(session: ReaderSession) -> ReaderWaiting
        ensures { result ≡ session }
    {
        ReaderWaiting { session }
    }

    /// The place, among the wallet's messages, of the one that is opened next.
    pub fn place(&self) -> u32
        ensures { result ≡ self.now.place }
    {
        self.session.place
    }

    /// Opens the wallet's message at this place (ISO/IEC 18013-5, 9.1.1.4). A message outside its form ends the
    /// session with status 11, one without a sealed text ends it, and one that doesn't open ends it with status 10.
    #[tactic(auto, unfolding(crate::specs::Reader::reader_opens))]
    pub fn open_next(
        self,
        alloc: Global,
        message: &[u8],
    ) -> Result<(ReaderAnswered, Octets), Stop<ReaderWaiting, ReaderEnded>>
        requires place { self.place ≤ 1000 }
        requires short { length message.now ≤ 2 ^ 24 }
        ensures { Opens self (reader_opens self message.now) result }
    {
        let Some(message) = SessionData::read(message) else {
            return Err(Stop::Ended(ReaderEnded::form()));
        };
        let Some(sealed) = message.sealed else {
            return Err(Stop::Ended(without_text(message.status)));
        };
        let Ok(sealed) = SealedData::copy_of(alloc, sealed) else {
            return Err(Stop::Back(self));
        };
        let Some(text) = self.session.open(sealed) else {
            return Err(Stop::Ended(ReaderEnded::with_status(
                ReaderEnd::Sealed,
                SessionStatus::Encryption,
            )));
        };
        let ReaderWaiting { mut session } = self;
        session.place += 1;
        Ok((ReaderAnswered::of(session, message.status), text))
    }
}

/// The end by a message without a sealed text.
fn without_text(status: Option<u64>) -> ReaderEnded
    ensures { result ≡ ending_without_text status }
{
    match status {
        Some(status) => ReaderEnded::silent(ReaderEnd::PeerStatus(status)),
        None => ReaderEnded::form(),
    }
}

//! A session of the reader that has ended.

ghost use Rattle.std.specs.Prelude.{◌≡◌, option_map};
ghost use Rattle.mdoc_outside.specs.Borrowed.{content};
ghost use Rattle.session_seal.specs.Ending.{silent, with_status};
ghost use Rattle.session_seal.specs.Stopping.{status_number};
ghost use Rattle.session_seal.specs.declared.reader_end.ReaderEnd.TheVariants.{SessionForm};

use crate::{ReaderEnd, SessionStatus};
use std::marker::Model;

/// A session of the reader that has ended: why, and the last message that it sends, if any.
#[derive(Drop)]
pub struct ReaderEnded {
    check: ReaderEnd,
    last_message: Option<[u8; 9]>,
}

impl Model for ReaderEnded {
    ghost use Rattle.session_seal.specs.Ending.{Ending};
    ghost use Rattle.session_seal.specs.declared.reader_end.ReaderEnd.{ReaderEnd};

    ghost Value = { Ending ReaderEnd };

    ghost view = { λ e. record { check = e.check; last_message = e.last_message } };
}

impl ReaderEnded {
    /// An end without a message.
    pub(crate) fn silent(check: ReaderEnd) -> ReaderEnded
        ensures { result ≡ silent check }
    {
        ReaderEnded {
            check,
            last_message: None,
        }
    }

    /// An end with a status message.
    pub(crate) fn with_status(check: ReaderEnd, status: SessionStatus) -> ReaderEnded
        ensures { result ≡ with_status check (status_number status) }
    {
        ReaderEnded {
            check,
            last_message: Some(status.message()),
        }
    }

    /// The end by a message outside its form.
    pub(crate) fn form() -> ReaderEnded
        ensures { result ≡ with_status SessionForm 11 }
    {
        ReaderEnded::with_status(ReaderEnd::SessionForm, SessionStatus::Decoding)
    }

    /// Why it ended.
    pub fn check(&self) -> ReaderEnd
        ensures { result ≡ self.now.check }
    {
        self.check
    }

    /// The last message that is to be sent: SessionData with a status.
    pub fn last_message(&self) -> Option<&[u8]>
        ensures { option_map content result ≡ self.now.last_message }
    {
        match &self.last_message {
            Some(message) => Some(&message[..]),
            None => None,
        }
    }
}

//! A session of the wallet that has ended.

ghost use Rattle.std.specs.Prelude.{◌≡◌, option_map};
ghost use Rattle.mdoc_outside.specs.Borrowed.{content};
ghost use Rattle.session_seal.specs.Ending.{silent, with_status};
ghost use Rattle.session_seal.specs.Stopping.{status_number};
ghost use Rattle.session_seal.specs.declared.wallet_end.WalletEnd.TheVariants.{MessageForm, Refused};

use crate::{SessionStatus, WalletEnd};
use std::marker::Model;

/// A session of the wallet that has ended: why, and the last message that it sends, if any.
#[derive(Drop)]
pub struct WalletEnded {
    check: WalletEnd,
    last_message: Option<[u8; 9]>,
}

impl Model for WalletEnded {
    ghost use Rattle.session_seal.specs.Ending.{Ending};
    ghost use Rattle.session_seal.specs.declared.wallet_end.WalletEnd.{WalletEnd};

    ghost Value = { Ending WalletEnd };

    ghost view = { λ e. record { check = e.check; last_message = e.last_message } };
}

impl WalletEnded {
    /// An end without a message.
    pub(crate) fn silent(check: WalletEnd) -> WalletEnded
        ensures { result ≡ silent check }
    {
        WalletEnded {
            check,
            last_message: None,
        }
    }

    /// An end with a status message.
    pub(crate) fn with_status(check: WalletEnd, status: SessionStatus) -> WalletEnded
        ensures { result ≡ with_status check (status_number status) }
    {
        WalletEnded {
            check,
            last_message: Some(status.message()),
        }
    }

    /// The end by a message outside its form.
    pub(crate) fn form() -> WalletEnded
        ensures { result ≡ with_status MessageForm 11 }
    {
        WalletEnded::with_status(WalletEnd::MessageForm, SessionStatus::Decoding)
    }

    /// The end by a device that failed, or refused the reader's key.
    pub(crate) fn refused() -> WalletEnded
        ensures { result ≡ with_status Refused 10 }
    {
        WalletEnded::with_status(WalletEnd::Refused, SessionStatus::Encryption)
    }

    /// Why it ended.
    pub fn check(&self) -> WalletEnd
        ensures { result ≡ self.now.check }
    {
        self.check
    }

    /// The last message that is to be sent: SessionData with a status.
    pub fn last_message(&self) -> Option<&[u8]>
        ensures { option_map content result ≡ self.now.last_message }
    {
        match &self.last_message {
            Some(message) => Some(&message[..]),
            None => None,
        }
    }
}

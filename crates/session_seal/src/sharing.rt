//! What may be handed to another thread.

use crate::{
    Kept, ReaderAnswered, ReaderEnded, ReaderEngaged, ReaderReady, ReaderWaiting, Stop,
    WalletAsked, WalletEnded, WalletEngaged, WalletOpen,
};
use mdoc_outside::is_send;

/// The states of a session may be handed to another thread.
pub fn types_are_send() {
    is_send::<WalletEngaged>();
    is_send::<WalletAsked>();
    is_send::<WalletOpen>();
    is_send::<WalletEnded>();
    is_send::<ReaderEngaged>();
    is_send::<ReaderReady>();
    is_send::<ReaderWaiting>();
    is_send::<ReaderAnswered>();
    is_send::<ReaderEnded>();
    is_send::<Kept<WalletAsked>>();
    is_send::<Stop<WalletOpen, WalletEnded>>();
}

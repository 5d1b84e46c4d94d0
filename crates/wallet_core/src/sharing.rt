//! What may be handed to another thread and shared with it.

use crate::after_round::AfterRound;
use crate::round::Round;
use crate::start_fault::StartFault;
use crate::started::Started;
use crate::want_of_memory::WantOfMemory;
use crate::{Announced, Reply, WalletNode};
use mdoc_outside::{is_send, is_sync};
use session_seal::{WalletEngaged, WalletOpen};

/// The types of this crate may be handed to another thread and shared with it.
pub fn types_are_send_and_sync() {
    is_send::<WalletNode<'_>>();
    is_sync::<WalletNode<'_>>();
    is_send::<Announced<'_>>();
    is_sync::<Announced<'_>>();
    is_send::<Reply>();
    is_sync::<Reply>();
    is_send::<Round>();
    is_sync::<Round>();
    is_send::<AfterRound>();
    is_sync::<AfterRound>();
    is_send::<WantOfMemory<WalletEngaged>>();
    is_sync::<WantOfMemory<WalletEngaged>>();
    is_send::<WantOfMemory<WalletOpen>>();
    is_sync::<WantOfMemory<WalletOpen>>();
    is_send::<Started>();
    is_sync::<Started>();
    is_send::<StartFault>();
    is_sync::<StartFault>();
}

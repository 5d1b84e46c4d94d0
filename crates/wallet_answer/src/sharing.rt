//! What may be handed to another thread and shared with it.

use crate::Answer;
use crate::held_items::HeldItems;
use crate::release::Release;
use crate::released_document::ReleasedDocument;
use crate::setup::WalletSetup;
use mdoc_outside::{is_send, is_sync};

/// The types of this crate may be handed to another thread and shared with it.
pub fn types_are_send_and_sync() {
    is_send::<HeldItems<'_>>();
    is_sync::<HeldItems<'_>>();
    is_send::<Answer>();
    is_sync::<Answer>();
    is_send::<WalletSetup<'_>>();
    is_sync::<WalletSetup<'_>>();
    is_send::<ReleasedDocument<'_>>();
    is_sync::<ReleasedDocument<'_>>();
    is_send::<Release<'_>>();
    is_sync::<Release<'_>>();
}

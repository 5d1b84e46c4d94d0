//! What may be handed to another thread and shared with it.

use crate::PlainRun;
use mdoc_outside::{is_send, is_sync};

/// What a wallet comes to may be handed to another thread and shared with it.
pub fn types_are_send_and_sync() {
    is_send::<PlainRun>();
    is_sync::<PlainRun>();
}

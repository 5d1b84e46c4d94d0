//! What may be handed to another thread and shared with it.

use crate::ReleasedAt;
use mdoc_outside::{is_send, is_sync};

/// The types of this crate may be handed to another thread and shared with it.
pub fn types_are_send_and_sync() {
    is_send::<ReleasedAt>();
    is_sync::<ReleasedAt>();
}

//! What may be handed to another thread and shared with it.

use crate::{Item, ItemFault};
use mdoc_outside::{is_send, is_sync};

/// Items may be handed to another thread, and shared with it.
pub fn types_are_send_and_sync() {
    is_send::<Item<'static>>();
    is_sync::<Item<'static>>();
    is_send::<ItemFault>();
    is_sync::<ItemFault>();
}

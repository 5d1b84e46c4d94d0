//! What may be handed to another thread and shared with it.

use crate::{ImportFault, Imported};
use mdoc_outside::{is_send, is_sync};

/// What an import comes to may be handed to another thread, and shared with it.
pub fn types_are_send_and_sync() {
    is_send::<Imported>();
    is_sync::<Imported>();
    is_send::<ImportFault>();
    is_sync::<ImportFault>();
}

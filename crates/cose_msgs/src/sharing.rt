//! What may be handed to another thread and shared with it.

use crate::{CoseFault, CoseKey, KeyFault, Mac0, Sign1};
use mdoc_outside::{is_send, is_sync};

/// Messages and keys may be handed to another thread, and shared with it.
pub fn types_are_send_and_sync() {
    is_send::<Sign1<'static>>();
    is_sync::<Sign1<'static>>();
    is_send::<Mac0<'static>>();
    is_sync::<Mac0<'static>>();
    is_send::<CoseKey>();
    is_sync::<CoseKey>();
    is_send::<CoseFault>();
    is_sync::<CoseFault>();
    is_send::<KeyFault>();
    is_sync::<KeyFault>();
}

//! What may be handed to another thread and shared with it.

use crate::{DigestIndex, Mso, MsoFault};
use mdoc_outside::{is_send, is_sync};

/// Security objects may be handed to another thread, and shared with it.
pub fn types_are_send_and_sync() {
    is_send::<Mso<'static>>();
    is_sync::<Mso<'static>>();
    is_send::<DigestIndex<'static>>();
    is_sync::<DigestIndex<'static>>();
    is_send::<MsoFault>();
    is_sync::<MsoFault>();
}

//! What may be handed to another thread and shared with it.

use crate::CopyDraft;
use crate::merge_fault::MergeFault;
use mdoc_outside::{is_send, is_sync};

/// The types of this crate may be handed to another thread and shared with it.
pub fn types_are_send_and_sync() {
    is_send::<MergeFault>();
    is_sync::<MergeFault>();
    is_send::<CopyDraft<'static>>();
    is_sync::<CopyDraft<'static>>();
}

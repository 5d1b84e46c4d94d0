//! What may be handed to another thread and shared with it.

use crate::judge_context::JudgeContext;
use mdoc_outside::{is_send, is_sync};

/// The types of this crate may be handed to another thread and shared with it.
pub fn types_are_send_and_sync() {
    is_send::<JudgeContext<'static>>();
    is_sync::<JudgeContext<'static>>();
}

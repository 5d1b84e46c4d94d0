//! What may be handed to another thread and shared with it.

use crate::{DocAsk, Documents, Request, RequestDraft, RequestFault, Wishes};
use mdoc_outside::{is_send, is_sync};

/// Requests, what is read of them and their faults are Send and Sync.
pub fn types_are_send_and_sync() {
    is_send::<Request<'static>>();
    is_sync::<Request<'static>>();
    is_send::<Documents<'static>>();
    is_sync::<Documents<'static>>();
    is_send::<DocAsk<'static>>();
    is_sync::<DocAsk<'static>>();
    is_send::<Wishes<'static>>();
    is_sync::<Wishes<'static>>();
    is_send::<RequestDraft>();
    is_sync::<RequestDraft>();
    is_send::<RequestFault>();
    is_sync::<RequestFault>();
}

//! What may be handed to another thread and shared with it.

use crate::{
    AnsweredDocument, DeviceAuth, Response, ResponseDoc, ResponseDocs, ResponseDraft,
    ResponseErrors, ResponseFault, ResponseItems,
};
use mdoc_outside::{is_send, is_sync};

/// Responses that are put together and that were read may be handed to another thread, and shared with it.
pub fn types_are_send_and_sync() {
    is_send::<ResponseDraft<'static>>();
    is_sync::<ResponseDraft<'static>>();
    is_send::<AnsweredDocument<'static>>();
    is_sync::<AnsweredDocument<'static>>();
    is_send::<DeviceAuth>();
    is_sync::<DeviceAuth>();
    is_send::<Response<'static>>();
    is_sync::<Response<'static>>();
    is_send::<ResponseDoc<'static>>();
    is_sync::<ResponseDoc<'static>>();
    is_send::<ResponseDocs<'static>>();
    is_sync::<ResponseDocs<'static>>();
    is_send::<ResponseErrors<'static>>();
    is_sync::<ResponseErrors<'static>>();
    is_send::<ResponseItems<'static>>();
    is_sync::<ResponseItems<'static>>();
    is_send::<ResponseFault>();
    is_sync::<ResponseFault>();
}

//! What may be handed to another thread and shared with it.

use crate::{CheckEnd, IssuerStatement, TrustedRoots};
use mdoc_outside::{is_send, is_sync};

/// What an issuer is believed by, and what it says, may be handed to another thread, and shared with it.
pub fn types_are_send_and_sync() {
    is_send::<TrustedRoots<'static>>();
    is_sync::<TrustedRoots<'static>>();
    is_send::<IssuerStatement<'static>>();
    is_sync::<IssuerStatement<'static>>();
    is_send::<CheckEnd>();
    is_sync::<CheckEnd>();
}

//! What may be handed to another thread and shared with it.

use crate::der::Der;
use crate::der_fault::DerFault;
use crate::parts::Parts;

fn is_send<T: Send>() {}

fn is_sync<T: Sync>() {}

/// Views, the iterators over them and their faults are Send and Sync.
pub fn types_are_send_and_sync() {
    is_send::<Der<'static>>();
    is_sync::<Der<'static>>();
    is_send::<Parts<'static>>();
    is_sync::<Parts<'static>>();
    is_send::<DerFault>();
    is_sync::<DerFault>();
}

//! What may be handed to another thread and shared with it.

use crate::row::Row;
use crate::row_fault::RowFault;

fn is_send<T: Send>() {}

fn is_sync<T: Sync>() {}

/// Rows and their faults are Send and Sync.
pub fn types_are_send_and_sync() {
    is_send::<Row>();
    is_sync::<Row>();
    is_send::<RowFault>();
    is_sync::<RowFault>();
}

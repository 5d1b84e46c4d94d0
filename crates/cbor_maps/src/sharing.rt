//! What may be handed to another thread and shared with it.

use crate::{MapBuild, MapFault, NamedMap};
use mdoc_outside::{is_send, is_sync};

/// Maps that were read and maps that are written may be handed to another thread, and shared with it.
pub fn types_are_send_and_sync() {
    is_send::<NamedMap<'static>>();
    is_sync::<NamedMap<'static>>();
    is_send::<MapBuild>();
    is_sync::<MapBuild>();
    is_send::<MapFault>();
    is_sync::<MapFault>();
}

//! What may be handed to another thread and shared with it.

use crate::{Rule, RuleFault, Rules, Wish};
use mdoc_outside::{is_send, is_sync};

/// Rules, what they are asked about and their faults are Send and Sync.
pub fn types_are_send_and_sync() {
    is_send::<Rules>();
    is_sync::<Rules>();
    is_send::<Rule>();
    is_sync::<Rule>();
    is_send::<RuleFault>();
    is_sync::<RuleFault>();
    is_send::<Wish<'static>>();
    is_sync::<Wish<'static>>();
}

//! What may be handed to another thread and shared with it.

use crate::arrival::Arrival;
use crate::message_joiner::MessageJoiner;
use crate::{Cuts, Ending, Fed, JoinFault, Joiner, Piece};
use mdoc_outside::{is_send, is_sync};

/// The types of this crate may be handed to another thread and shared with it.
pub fn types_are_send_and_sync() {
    is_send::<Joiner>();
    is_sync::<Joiner>();
    is_send::<Fed>();
    is_sync::<Fed>();
    is_send::<JoinFault>();
    is_sync::<JoinFault>();
    is_send::<Ending>();
    is_sync::<Ending>();
    is_send::<Cuts<'static>>();
    is_sync::<Cuts<'static>>();
    is_send::<Piece<'static>>();
    is_sync::<Piece<'static>>();
    is_send::<MessageJoiner>();
    is_sync::<MessageJoiner>();
    is_send::<Arrival>();
    is_sync::<Arrival>();
}

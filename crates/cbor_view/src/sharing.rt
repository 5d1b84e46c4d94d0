//! What may be handed to another thread and shared with it.

use crate::items::Items;
use crate::pairs::Pairs;
use crate::partial_items::PartialItems;
use crate::partial_pairs::PartialPairs;
use crate::partial_view::PartialView;
use crate::view::View;

fn is_send<T: Send>() {}

fn is_sync<T: Sync>() {}

/// Views, partial views and the iterators over them are Send and Sync.
pub fn types_are_send_and_sync() {
    is_send::<View<'static>>();
    is_sync::<View<'static>>();
    is_send::<Items<'static>>();
    is_sync::<Items<'static>>();
    is_send::<Pairs<'static>>();
    is_sync::<Pairs<'static>>();
    is_send::<PartialView<'static>>();
    is_sync::<PartialView<'static>>();
    is_send::<PartialItems<'static>>();
    is_sync::<PartialItems<'static>>();
    is_send::<PartialPairs<'static>>();
    is_sync::<PartialPairs<'static>>();
}

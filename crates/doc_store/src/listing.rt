//! The items of an array by their places.

ghost use Rattle.std.specs.Prelude.{◌≡◌, ◌≤◌, length, option_map, slice_get};
ghost use Rattle.cbor_view.specs.Items.{left};
ghost use Rattle.cbor_view.specs.View.{part};

use cbor_view::{Items, View};

/// How many items these are.
pub(crate) fn count_of(items: Items<'_>) -> usize
    requires { length (left items) ≤ 64 }
    ensures { result ≡ length (left items.entry) }
{
    let mut count = 0;
    for _item in items {
        count += 1;
    }
    count
}

/// The item at a place, if there is one.
pub(crate) fn item_at<'a>(items: Items<'a>, place: usize) -> Option<View<'a>>
    ensures { option_map part result ≡ slice_get (left items.entry) place }
{
    let mut before = place;
    for item in items {
        if before == 0 {
            return Some(item);
        }
        before -= 1;
    }
    None
}

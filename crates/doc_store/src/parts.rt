//! The parts of a store's form: names, and lists of so many items.

ghost use Rattle.std.specs.Prelude.{◌≡◌, ◌&&◌, nat_le, length, option_map};
ghost use Rattle.cbor_view.specs.Items.{left};
ghost use Rattle.cbor_view.specs.View.{part};
ghost use Rattle.doc_store.specs.Store.{name_in, within};

use cbor_view::{Items, View};
use mdoc_outside::MOST_NAME_BYTES;

/// A name: a text that is not too long.
pub(crate) fn read_name<'a>(value: &View<'a>) -> Option<&'a str>
    ensures { option_map (λ t. t.now) result ≡ name_in (part value.now) }
{
    let name = value.text()?;
    if name.len() > MOST_NAME_BYTES {
        return None;
    }
    Some(name)
}

/// The items, where they are so many at least and at most.
pub(crate) fn items_within<'a>(items: Items<'a>, least: usize, most: usize) -> Option<Items<'a>>
    ensures { option_map left result ≡ within least most (left items.entry) }
{
    if is_count_within(items, least, most) {
        Some(items)
    } else {
        None
    }
}

fn is_count_within(items: Items<'_>, least: usize, most: usize) -> bool
    ensures { result
        ≡ (nat_le least (length (left items.entry)) && nat_le (length (left items.entry)) most) }
{
    let mut count = 0;
    for _item in items {
        if count == most {
            return false;
        }
        count += 1;
    }
    least <= count
}

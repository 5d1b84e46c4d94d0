// The security of an engagement.
ghost use Rattle.std.specs.Prelude.{◌≡◌, option_map};
ghost use Rattle.cbor_view.specs.Items.{left};
ghost use Rattle.cbor_view.specs.Reading.{Gives};
ghost use Rattle.cbor_view.specs.View.{part};
ghost use Rattle.cbor_maps.specs.Reading.{encoded_in};
ghost use Rattle.engagement.specs.Engagement.{encoded_item, needed_security, of_items, security_in, security_of};
ghost use Rattle.cbor_view.specs.Parts.{tree_in};
ghost use Rattle.cbor_view.specs.Tree.{int_of};
ghost use Rattle.engagement.specs.EngagementView.{security};

use crate::EngageFault;
use cbor_view::{ENCODED, Items, View};

/// The key of the map under which it is.
const SECURITY: u8 = 1;

/// The cipher suite and the device key of an engagement (ISO/IEC 18013-5, 9.1.5.2).
#[derive(Clone, Copy)]
pub(crate) struct Security<'a> {
    pub(crate) suite: i128,
    pub(crate) key: View<'a>,
}

/// The item that the bytes under tag 24 spell.
fn encoded_item(item: View<'_>) -> Option<View<'_>>
    ensures { option_map part result ≡ encoded_item (encoded_in (part item.entry)) }
{
    match item.tag() {
        Some((ENCODED, inner)) => match inner.bytes() {
            Some(bytes) => match View::read(bytes) {
                Ok(key) => Some(key),
                Err(_) => None,
            },
            None => None,
        },
        _ => None,
    }
}

/// The security of two items.
fn of_items(mut items: Items<'_>) -> Option<Security<'_>>
    ensures { option_map security result ≡ of_items (left items.entry) }
{
    let first = items.next()?;
    let second = items.next()?;
    match items.next() {
        Some(_) => None,
        None => of_two(first, second),
    }
}

/// The security of a number and an encoded key.
fn of_two<'a>(first: View<'a>, second: View<'a>) -> Option<Security<'a>>
    ensures { option_map security result ≡ security_of (int_of (tree_in (part first.entry))) (encoded_item (encoded_in (part second.entry))) }
{
    let suite = first.int()?;
    let key = encoded_item(second)?;
    Some(Security { suite, key })
}

impl<'a> Security<'a> {
    /// The security that an item is.
    fn of_item(item: View<'a>) -> Option<Security<'a>>
        ensures { option_map security result ≡ security_in (part item.entry) }
    {
        match item.items() {
            Some(items) => of_items(items),
            None => None,
        }
    }

    /// The security that was found under its key.
    pub(crate) fn read(found: Option<View<'a>>) -> Result<Security<'a>, EngageFault>
        ensures { Gives security result (needed_security (option_map part found.entry)) }
    {
        let Some(item) = found else {
            return Err(EngageFault::Field(SECURITY));
        };
        match Security::of_item(item) {
            Some(security) => Ok(security),
            None => Err(EngageFault::Field(SECURITY)),
        }
    }
}

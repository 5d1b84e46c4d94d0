//! The array that a message is.

ghost use Rattle.std.specs.Prelude.{◌≡◌, Some, IfOk, option_map};
ghost use Rattle.mdoc_outside.specs.Borrowed.{content};
ghost use Rattle.cbor_view.specs.Items.{left};
ghost use Rattle.cbor_view.specs.Parts.{items_in};
ghost use Rattle.cbor_view.specs.Reading.{Gives};
ghost use Rattle.cbor_view.specs.View.{part};
ghost use Rattle.cose_msgs.specs.Message.{bytes_or_null, headers_of, message_of, of_four, of_items, untagged};
ghost use Rattle.cose_msgs.specs.MessageView.{message, HasParts};

use crate::CoseFault;
use crate::headers::{has_distinct_labels, protected_map};
use cbor_view::{Items, View};

/// The parts of a message (RFC 9052, sections 4.2 and 6.2): the last is the signature or the tag.
#[derive(Clone, Copy)]
pub(crate) struct Message<'a> {
    pub(crate) protected: &'a [u8],
    pub(crate) unprotected: View<'a>,
    pub(crate) payload: Option<&'a [u8]>,
    pub(crate) last: &'a [u8],
}

/// The item under that tag, or the item itself.
fn untagged(item: View<'_>, tag: u64) -> View<'_>
    ensures { part result ≡ untagged tag (part item.entry) }
{
    match item.tag() {
        Some((own, inner)) => { if own == tag { inner } else { item } }
        None => item,
    }
}

/// A string of bytes, or null for none.
fn bytes_or_null(item: View<'_>) -> Option<Option<&[u8]>>
    ensures { option_map (option_map content) result ≡ bytes_or_null (part item.entry) }
{
    if item.is_null() {
        return Some(None);
    }
    match item.bytes() {
        Some(bytes) => Some(Some(bytes)),
        None => None,
    }
}

/// The message of four items.
fn of_four<'a>(
    first: View<'a>,
    second: View<'a>,
    third: View<'a>,
    fourth: View<'a>,
) -> Result<Message<'a>, CoseFault>
    ensures { Gives message result (of_four (part first.entry) (part second.entry) (part third.entry) (part fourth.entry)) }
{
    let Some(protected) = first.bytes() else {
        return Err(CoseFault::Shape);
    };
    let Some(_) = second.pairs() else {
        return Err(CoseFault::Shape);
    };
    let Some(payload) = bytes_or_null(third) else {
        return Err(CoseFault::Shape);
    };
    match fourth.bytes() {
        Some(last) => Ok(Message {
            protected,
            unprotected: second,
            payload,
            last,
        }),
        None => Err(CoseFault::Shape),
    }
}

/// The message of so many items.
fn of_items(mut items: Items<'_>) -> Result<Message<'_>, CoseFault>
    ensures { Gives message result (of_items (left items.entry)) }
{
    let Some(first) = items.next() else {
        return Err(CoseFault::Shape);
    };
    let Some(second) = items.next() else {
        return Err(CoseFault::Shape);
    };
    let Some(third) = items.next() else {
        return Err(CoseFault::Shape);
    };
    let Some(fourth) = items.next() else {
        return Err(CoseFault::Shape);
    };
    match items.next() {
        Some(_) => Err(CoseFault::Shape),
        None => of_four(first, second, third, fourth),
    }
}

impl<'a> Message<'a> {
    /// The message that an item is, which may be under that tag.
    pub(crate) fn read(item: View<'a>, tag: u64) -> Result<Message<'a>, CoseFault>
        ensures exact { Gives message result (message_of tag (part item.entry)) }
        ensures stands_in { IfOk result (λ m. HasParts (part item.entry).bytes (message m)) }
    {
        match untagged(item, tag).items() {
            Some(items) => of_items(items),
            None => Err(CoseFault::Shape),
        }
    }

    /// The protected map, where it is one map, and no label is twice in it or in the unprotected map.
    pub(crate) fn headers(&self) -> Result<View<'a>, CoseFault>
        ensures { Gives part result (headers_of (message self.now)) }
    {
        let header = protected_map(self.protected)?;
        if has_distinct_labels(header) && has_distinct_labels(self.unprotected) {
            Ok(header)
        } else {
            Err(CoseFault::Header)
        }
    }
}

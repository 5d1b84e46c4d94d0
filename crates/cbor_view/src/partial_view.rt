//! A view of an item as far as it is spelled.

ghost use Rattle.std.specs.Prelude.{◌≡◌, ◌+◌, ◌<◌, ◌≤◌, ◌^◌, length, option_map, is_some, is_none, IfSome};
ghost use Rattle.cbor_view.specs.Spelling.{AreBytes};
ghost use Rattle.cbor_view.specs.PartialHead.{array_count, map_count, tag_number};
ghost use Rattle.cbor_view.specs.PartialItem.{front_item, fault_in, place_in, whole_in, declared_count, partial_items, partial_pairs, partial_tag};

use crate::cbor_fault::CborFault;
use crate::heads::{Head, read_head};
use crate::partial_items::PartialItems;
use crate::partial_pairs::PartialPairs;
use crate::view::{MOST_LEVELS, View};
use crate::walk::{LENGTHS_END, skip};

/// One item (RFC 8949, section 3) as far as it is spelled: the bytes from its head to the end of the
/// file, and their place there. It need not be whole.
#[derive(Clone, Copy)]
pub struct PartialView<'a> {
    pub(crate) rest: &'a [u8],
    pub(crate) at: usize,
    pub(crate) levels: u32,
    ghost in_range: { at + length rest.now < 2 ^ 64 },
    ghost most: { levels ≤ 32 },
    ghost each: { AreBytes rest.now },
}

impl<'a> PartialView<'a> {
    ghost use Rattle.cbor_view.specs.View.{part};
    ghost use Rattle.cbor_view.specs.PartialView.{rest_of_file, with_levels, partial_item, rest_after};
    ghost use Rattle.cbor_view.specs.PartialItems.{partial_items_left};
    ghost use Rattle.cbor_view.specs.PartialPairs.{partial_pairs_left};
    ghost use Rattle.cbor_view.specs.PartialHead.{head_and_body};

    /// The item at the front of a file, in the profile that `View::read` has. Bytes may follow it.
    pub fn read(bytes: &'a [u8]) -> PartialView<'a>
        ensures { partial_item result ≡ front_item bytes.now }
    {
        PartialView {
            rest: bytes,
            at: 0,
            levels: MOST_LEVELS,
        }
    }

    /// The place of its head in the file.
    pub fn at(&self) -> usize
        ensures { result ≡ place_in (partial_item self.now) }
    {
        self.at
    }

    /// The item, where it is whole.
    pub fn view(&self) -> Option<View<'a>>
        ensures { option_map part result ≡ whole_in (partial_item self.now) }
    {
        match skip(self.rest, self.levels) {
            Ok(rest) => {
                let (slice, _) = self.rest.split_at(self.rest.len() - rest.len());
                Some(View { slice, at: self.at })
            }
            Err(_) => None,
        }
    }

    /// Its first fault, none exactly where it is whole. Bytes after it are no fault.
    pub fn fault(&self) -> Option<CborFault>
        ensures exact { result ≡ fault_in (partial_item self.now) }
        ensures whole { is_some (whole_in (partial_item self.now)) ≡ is_none result }
        ensures at_or_after { IfSome result (λ f. place_in (partial_item self.now) ≤ f.at) }
    {
        match skip(self.rest, self.levels) {
            Ok(_) => None,
            Err(stop) => Some(CborFault {
                kind: stop.kind,
                at: (self.at + self.rest.len()).saturating_sub(stop.left),
            }),
        }
    }

    /// The count of an array (major type 4) by its head, however many of its items are spelled. None
    /// where it is no array, or its count or depth is past the limits.
    pub fn count(&self) -> Option<u64>
        ensures { result ≡ declared_count (partial_item self.now) }
    {
        let Some((head, _)) = self.inside() else {
            return None;
        };
        array_count(head)
    }

    /// The items of an array (major type 4) up to the first that isn't whole, that one too. None where
    /// it is no array, or its count or depth is past the limits.
    pub fn items(&self) -> Option<PartialItems<'a>>
        ensures { option_map partial_items_left result ≡ partial_items (partial_item self.now) }
    {
        let Some((head, front)) = self.inside() else {
            return None;
        };
        match array_count(head) {
            Some(count) => Some(PartialItems { front, count }),
            None => None,
        }
    }

    /// The pairs of a map (major type 5) up to the first that isn't whole, that one too: it has no value
    /// where its key isn't whole. None where it is no map, or its count or depth is past the limits.
    pub fn pairs(&self) -> Option<PartialPairs<'a>>
        ensures { option_map partial_pairs_left result ≡ partial_pairs (partial_item self.now) }
    {
        let Some((head, front)) = self.inside() else {
            return None;
        };
        match map_count(head) {
            Some(count) => Some(PartialPairs { front, count }),
            None => None,
        }
    }

    /// The number of a tag (major type 6), and what stands under it. None where it is no tag, or its
    /// depth is past the limit.
    pub fn tag(&self) -> Option<(u64, PartialView<'a>)>
        ensures { option_map (λ x. (x.0, partial_item x.1)) result ≡ partial_tag (partial_item self.now) }
    {
        let Some((head, inner)) = self.inside() else {
            return None;
        };
        match tag_number(head) {
            Some(number) => Some((number, inner)),
            None => None,
        }
    }

    /// What follows it, where it is whole.
    pub(crate) fn following(&self) -> Option<PartialView<'a>>
        ensures { option_map with_levels result ≡ rest_after self.now }
    {
        match skip(self.rest, self.levels) {
            Ok(rest) => Some(PartialView {
                rest,
                at: self.at + (self.rest.len() - rest.len()),
                levels: self.levels,
            }),
            Err(_) => None,
        }
    }

    /// Its head, and what follows it, one level deeper where there may be one.
    fn inside(&self) -> Option<(Head, PartialView<'a>)>
        ensures { option_map (λ x. (x.0, with_levels x.1)) result ≡ head_and_body self.now.levels (rest_of_file self.now) }
    {
        if self.levels == 0 {
            return None;
        }
        match read_head(self.rest) {
            Ok((head, rest)) => {
                let front = PartialView {
                    rest,
                    at: self.at + (self.rest.len() - rest.len()),
                    levels: self.levels - 1,
                };
                Some((head, front))
            }
            Err(_) => None,
        }
    }
}

/// The count of an array, where it is within the limit.
fn array_count(head: Head) -> Option<u64>
    ensures { result ≡ array_count head }
{
    match head {
        Head::Array(count) if count < LENGTHS_END => Some(count),
        _ => None,
    }
}

/// The count of a map, where it is within the limit.
fn map_count(head: Head) -> Option<u64>
    ensures { result ≡ map_count head }
{
    match head {
        Head::Map(count) if count < LENGTHS_END => Some(count),
        _ => None,
    }
}

/// The number of a tag.
fn tag_number(head: Head) -> Option<u64>
    ensures { result ≡ tag_number head }
{
    match head {
        Head::Tag(number) => Some(number),
        _ => None,
    }
}

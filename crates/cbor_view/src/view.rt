//! A view of one item.

ghost use Rattle.std.specs.Prelude.{◌≡◌, ℕ, ◌+◌, ◌<◌, ◌≤◌, ◌^◌, length, drop, Ok, IsOk, IsTrue, IfSome, IfOk, MatchResult, option_map, option_copied};
ghost use Rattle.cbor_view.specs.Tree.{Tree, uint_of, int_of, bytes_of, text_of, boolean_of, is_null, tag_of, items_of, pairs_of, levels};
ghost use Rattle.cbor_view.specs.Label.{label_of, is_label};
ghost use Rattle.cbor_view.specs.Spelling.{Spells, SpellsNone};
ghost use Rattle.cbor_view.specs.Reading.{Gives, head_at, reads, tree_of, size};
ghost use Rattle.cbor_view.specs.Parts.{LiesIn, AllLieIn, PairsLieIn, cbor, tag_in, items_in, pairs_in, first_part};
ghost use Rattle.cbor_view.specs.Opening.{Opens, EndsWith, begins};

use crate::cbor_fault::CborFault;
use crate::cbor_kind::CborKind;
use crate::doubled::Doubled;
use crate::heads::{Head, read_head};
use crate::items::Items;
use crate::key::Key;
use crate::pairs::Pairs;
use crate::walk::{skip, skip_again, walk};

/// The tag of a byte string that holds an encoded item (RFC 8949, section 3.4.5.1).
pub const ENCODED: u64 = 24;

/// The most levels of nesting that an item may have.
pub(crate) const MOST_LEVELS: u32 = 32;

/// One item (RFC 8949, section 3): the bytes that spell it, and their place in the bytes first read.
#[derive(Clone, Copy)]
pub struct View<'a> {
    pub(crate) slice: &'a [u8],
    pub(crate) at: usize,
    ghost spelled: { IsOk (reads slice.now) },
    ghost in_range: { at + length slice.now < 2 ^ 64 },
}

impl<'a> View<'a> {
    ghost use Rattle.cbor_view.specs.View.{part, tree, entry_tree, entry_part};
    ghost use Rattle.cbor_view.specs.Items.{left, trees_left};
    ghost use Rattle.cbor_view.specs.Pairs.{pairs_left, pair_trees_left};

    /// The item that all of the bytes spell (RFC 8949, section 3), in the profile of this crate:
    /// definite lengths, UTF-8 text, lengths and counts below 2^32, at most 32 levels of nesting. A
    /// head may be longer than needed.
    pub fn read(bytes: &'a [u8]) -> Result<View<'a>, CborFault>
        ensures exact { MatchResult result (λ v. Spells bytes.now (tree v)) (λ _. SpellsNone bytes.now) }
        ensures read { Gives tree result (reads bytes.now) }
        ensures whole { Gives part result (cbor bytes.now) }
    {
        match skip(bytes, MOST_LEVELS) {
            Ok([]) => Ok(View {
                slice: bytes,
                at: 0,
            }),
            Ok(rest) => Err(CborFault {
                kind: CborKind::Trailing,
                at: bytes.len().saturating_sub(rest.len()),
            }),
            Err(stop) => Err(CborFault {
                kind: stop.kind,
                at: bytes.len().saturating_sub(stop.left),
            }),
        }
    }

    /// The slice that spells the item.
    pub fn raw(&self) -> &'a [u8]
        ensures { result.now ≡ (part self.now).bytes }
    {
        self.slice
    }

    /// The item's first place and the place after it, in the bytes first read.
    pub fn span(&self) -> (usize, usize)
        ensures from { result.0 ≡ (part self.now).at }
        ensures to { result.1 ≡ (part self.now).at + length (part self.now).bytes }
    {
        (self.at, self.at + self.slice.len())
    }

    /// The number of an unsigned integer (major type 0).
    pub fn uint(&self) -> Option<u64>
        ensures { result ≡ uint_of (tree self.now) }
    {
        match split_head(self.slice) {
            (Head::Unsigned(number), _) => Some(number),
            _ => None,
        }
    }

    /// The number of an integer (major types 0 and 1).
    pub fn int(&self) -> Option<i128>
        ensures { result ≡ int_of (tree self.now) }
    {
        match split_head(self.slice) {
            (Head::Unsigned(number), _) => Some(i128::from(number)),
            (Head::Negative(number), _) => Some(-1 - i128::from(number)),
            _ => None,
        }
    }

    /// The bytes of a byte string (major type 2).
    pub fn bytes(&self) -> Option<&'a [u8]>
        ensures { option_map (λ b. b.now) result ≡ bytes_of (tree self.now) }
    {
        match split_head(self.slice) {
            (Head::Bytes(_), body) => Some(body),
            _ => None,
        }
    }

    /// The text of a text string (major type 3).
    pub fn text(&self) -> Option<&'a str>
        ensures { option_map (λ b. b.now) result ≡ text_of (tree self.now) }
    {
        match split_head(self.slice) {
            (Head::Text(_), body) => str::from_utf8(body).ok(),
            _ => None,
        }
    }

    /// The UTF-8 bytes of a text string (major type 3).
    pub fn text_bytes(&self) -> Option<&'a [u8]>
        ensures { option_map (λ b. b.now) result ≡ text_of (tree self.now) }
    {
        match split_head(self.slice) {
            (Head::Text(_), body) => Some(body),
            _ => None,
        }
    }

    /// The truth value (simple values 20 and 21; RFC 8949, section 3.3).
    pub fn boolean(&self) -> Option<bool>
        ensures { result ≡ boolean_of (tree self.now) }
    {
        match split_head(self.slice) {
            (Head::Simple(20), _) => Some(false),
            (Head::Simple(21), _) => Some(true),
            _ => None,
        }
    }

    /// Whether it is null (simple value 22; RFC 8949, section 3.3).
    pub fn is_null(&self) -> bool
        ensures { result ≡ is_null (tree self.now) }
    {
        matches!(split_head(self.slice), (Head::Simple(22), _))
    }

    /// The number of a tag, and the item under it (major type 6).
    pub fn tag(&self) -> Option<(u64, View<'a>)>
        ensures exact { option_map (λ x. (x.0, tree x.1)) result ≡ tag_of (tree self.now) }
        ensures place { option_map (λ x. (x.0, part x.1)) result ≡ tag_in (part self.now) }
        ensures stands_in { IfSome result (λ x. LiesIn (part self.now) (part x.1)) }
    {
        match split_head(self.slice) {
            (Head::Tag(number), body) => {
                let at = self.at + (self.slice.len() - body.len());
                Some((number, View { slice: body, at }))
            }
            _ => None,
        }
    }

    /// How deep arrays, maps and tags are nested in the item, 0 where it is none of them.
    pub fn depth(&self) -> u32
        ensures { result ≡ levels (tree self.now) }
    {
        depth_of(self.slice)
    }

    /// The items of an array (major type 4).
    pub fn items(&self) -> Option<Items<'a>>
        ensures exact { option_map trees_left result ≡ items_of (tree self.now) }
        ensures place { option_map left result ≡ items_in (part self.now) }
        ensures lie { IfSome result (λ it. AllLieIn (part self.now) (left it)) }
    {
        match split_head(self.slice) {
            (Head::Array(count), rest) => {
                let at = self.at + (self.slice.len() - rest.len());
                Some(Items { rest, count, at })
            }
            _ => None,
        }
    }

    /// The pairs of a map (major type 5).
    pub fn pairs(&self) -> Option<Pairs<'a>>
        ensures exact { option_map pair_trees_left result ≡ pairs_of (tree self.now) }
        ensures place { option_map pairs_left result ≡ pairs_in (part self.now) }
        ensures lie { IfSome result (λ it. PairsLieIn (part self.now) (pairs_left it)) }
    {
        match split_head(self.slice) {
            (Head::Map(count), rest) => {
                let at = self.at + (self.slice.len() - rest.len());
                Some(Pairs { rest, count, at })
            }
            _ => None,
        }
    }

    /// The value under a key of a map, or none where the key isn't there or the item is no map.
    pub fn entry(&self, key: Key<'_>) -> Result<Option<View<'a>>, Doubled>
        ensures exact { Gives (option_map tree) result (entry_tree key.entry self.now) }
        ensures place { Gives (option_map part) result (entry_part key.entry self.now) }
        ensures stands_in { IfOk result (λ found. IfSome found (λ v. LiesIn (part self.now) (part v))) }
    {
        let Some(pairs) = self.pairs() else {
            return Ok(None);
        };
        let mut found = None;
        for (name, value) in pairs {
            if name.is_key(key) {
                if found.is_some() {
                    return Err(Doubled);
                }
                found = Some(value);
            }
        }
        Ok(found)
    }

    /// Whether the item is this key of a map.
    fn is_key(&self, key: Key<'_>) -> bool
        ensures { result ≡ is_label (label_of key.entry) (tree self.now) }
    {
        match key {
            Key::Int(number) => match self.int() {
                Some(own) => own == i128::from(number),
                None => false,
            },
            Key::Text(text) => match self.text() {
                Some(own) => own == text,
                None => false,
            },
        }
    }

    /// The item at the front of bytes, and what follows it.
    pub(crate) fn first(bytes: &'a [u8], at: usize) -> (View<'a>, &'a [u8])
        requires begins { IsTrue (begins bytes.now) }
        requires in_range { at + length bytes.now < 2 ^ 64 }
        ensures item { part result.0 ≡ first_part (record { at = at; bytes = bytes.now }) }
        ensures rest { result.1.now ≡ drop (size bytes.now) bytes.now }
        ensures len { length (part result.0).bytes ≡ size bytes.now }
        ensures within { size bytes.now ≤ length bytes.now }
    {
        match skip_again(bytes) {
            Ok(rest) => {
                let (slice, rest) = bytes.split_at(bytes.len() - rest.len());
                (View { slice, at }, rest)
            }
            Err(_) => unreachable!(),
        }
    }
}

/// The head of an item that was read, and what follows it.
fn split_head(item: &[u8]) -> (Head, &[u8])
    requires { IsOk (reads item.now) }
    ensures head { head_at item.now ≡ Ok (result.0, result.1.now) }
    ensures opens { Opens result.0 result.1.now (tree_of item.now) }
    ensures end { EndsWith item.now result.1.now }
    ensures shorter { length result.1.now ≤ length item.now }
{
    match read_head(item) {
        Ok(split) => split,
        Err(_) => unreachable!(),
    }
}

/// How deep an item that was read is nested.
fn depth_of(item: &[u8]) -> u32
    requires { IsOk (reads item.now) }
    ensures { result ≡ levels (tree_of item.now) }
{
    let mut fewest = MOST_LEVELS;
    match walk(item, MOST_LEVELS, &mut fewest) {
        Ok(_) => MOST_LEVELS - fewest,
        Err(_) => unreachable!(),
    }
}

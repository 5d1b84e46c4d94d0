//! How many bytes what is written takes at most, so that they are never moved while they are written.

use crate::CopyDraft;
use doc_store::Document;
use mdoc_outside::Octets;

/// The most bytes of the heads, the keys and the numbers of one map of a store file.
const MAP_ROOM: usize = 64;

/// The most bytes of the head of a text with that of the array after it.
const NAME_ROOM: usize = 10;

/// The room of a copy: its items and its issuer's signature, and each namespace where the items before an item are of
/// another one.
pub(crate) fn copy_room(copy: &CopyDraft<'_>) -> usize {
    let mut room = copy.issuer_auth.len().saturating_add(MAP_ROOM);
    let mut space = None;
    for item in copy.items {
        if space != Some(item.ns) {
            room = room.saturating_add(item.ns.len()).saturating_add(NAME_ROOM);
            space = Some(item.ns);
        }
        room = room.saturating_add(item.raw.len());
    }
    room
}

/// The room of a package of one document.
pub(crate) fn package_room(doc_type: &str, copies: &[Octets]) -> usize {
    let mut room = doc_type.len().saturating_add(2 * MAP_ROOM);
    for copy in copies {
        room = room.saturating_add(copy.as_slice().len());
    }
    room
}

/// The room of a store: a document is written in no more bytes than it was read from.
pub(crate) fn store_room(documents: &[Document<'_>]) -> usize {
    let mut room = MAP_ROOM;
    for document in documents {
        room = room.saturating_add(document.size());
    }
    room
}

//! How many bytes a copy takes at most, so that those of a package are never moved while they are written.

use crate::signer::Signer;
use issue_spec::Spec;

/// The most bytes of a copy's heads and keys, its device key and its signature.
const COPY_ROOM: usize = 512;

/// The most bytes of an item's heads and keys, its salt and its digest.
const ITEM_ROOM: usize = 136;

/// The most bytes of the heads of a namespace.
const NAMESPACE_ROOM: usize = 16;

/// The room of a copy. A namespace stands once among its items and once among their digests; it is counted at each
/// element that follows one of another namespace.
pub fn copy_room(spec: &Spec, signer: &Signer) -> usize {
    let mut room = signer
        .certificate
        .as_slice()
        .len()
        .saturating_add(spec.doc_type().len())
        .saturating_add(COPY_ROOM);
    let mut space: &[u8] = &[];
    for element in spec.elements() {
        let ns = element.ns.as_slice();
        if ns != space {
            room = room
                .saturating_add(ns.len())
                .saturating_add(ns.len())
                .saturating_add(NAMESPACE_ROOM);
            space = ns;
        }
        room = room
            .saturating_add(element.name.as_slice().len())
            .saturating_add(element.value.as_slice().len())
            .saturating_add(ITEM_ROOM);
    }
    room
}

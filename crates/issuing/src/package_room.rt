//! How many bytes a package takes at most, so that they are never moved while they are written.

use crate::copy_room::copy_room;
use crate::signer::Signer;
use issue_spec::Spec;
use mdoc_outside::MOST_FILE_BYTES;

/// The most bytes of what stands before the copies, but for the document type.
const HEAD_ROOM: usize = 128;

/// The room of a package. One that is longer than a package may be has the room of the longest.
pub(crate) fn package_room(spec: &Spec, signer: &Signer) -> usize {
    copy_room(spec, signer)
        .saturating_mul(spec.copies() as usize)
        .saturating_add(spec.doc_type().len())
        .saturating_add(HEAD_ROOM)
        .min(MOST_FILE_BYTES)
}

//! Writing of copies.

ghost use Rattle.std.specs.Prelude.{◌≡◌, ◌++◌, IfOk, OnOk, map};
ghost use Rattle.cbor_view.specs.Shortest.{array_bytes};
ghost use Rattle.doc_response.specs.AnsweredView.{item_seen};
ghost use Rattle.doc_store.specs.Document.{document_of};
ghost use Rattle.doc_store.specs.StoredCopy.{copy_of};
ghost use Rattle.store_write.specs.CopyView.{copy_seen};
ghost use Rattle.store_write.specs.Written.{copy_bytes};

use crate::CopyDraft;
use crate::heads::put_copy_head;
use crate::room::copy_room;
use cbor_write::{Build, count_of};
use doc_response::{ReleasedItem, append_items};
use doc_store::{Document, StoredCopy};
use mdoc_outside::{Memory, Octets};
use std::alloc::Global;

/// Appends a copy.
pub fn put_copy(alloc: Global, build: &mut Build, copy: &CopyDraft<'_>) -> Result<(), Memory>
    ensures { OnOk result (build.new ≡ build.old ++ copy_bytes (copy_seen copy.now)) }
{
    put_copy_head(build, copy.key, copy.used, copy.issuer_auth)?;
    append_items(alloc, build, copy.items)
}

/// The bytes of a copy.
pub fn write_copy(alloc: Global, copy: &CopyDraft<'_>) -> Result<Octets, Memory>
    ensures { IfOk result (λ b. b ≡ copy_bytes (copy_seen copy.now)) }
{
    let mut build = Build::with_room(alloc, copy_room(copy))?;
    put_copy(alloc, &mut build, copy)?;
    Ok(build.finish())
}

/// The items of a copy that was read, each with its namespace.
fn stored_items<'a>(alloc: Global, copy: &StoredCopy<'a>) -> Result<Vec<ReleasedItem<'a>>, Memory>
    ensures { IfOk result (λ items. map item_seen items.items ≡ (copy_of copy.now).items) }
{
    let mut items = Vec::new(alloc);
    for (ns, raw) in copy.items() {
        items.push(ReleasedItem { ns, raw })?;
    }
    Ok(items)
}

/// Appends a copy that was read.
fn put_stored_copy(alloc: Global, build: &mut Build, copy: &StoredCopy<'_>) -> Result<(), Memory>
    ensures { OnOk result (build.new ≡ build.old ++ copy_bytes (copy_of copy.now)) }
{
    let items = stored_items(alloc, copy)?;
    let draft = CopyDraft {
        key: copy.key(),
        used: copy.used(),
        issuer_auth: copy.issuer_auth().raw(),
        items: &items,
    };
    put_copy(alloc, build, &draft)
}

/// Appends the array of the copies of a document that was read.
pub(crate) fn put_stored_copies(
    alloc: Global,
    build: &mut Build,
    document: &Document<'_>,
) -> Result<(), Memory>
    ensures { OnOk result (build.new ≡ build.old ++ array_bytes (map copy_bytes (document_of document.now).copies)) }
{
    let count = document.copies();
    build.array(count_of(count)?)?;
    for place in 0..count {
        put_stored_copy(alloc, build, &document.copy(place))?;
    }
    Ok(())
}

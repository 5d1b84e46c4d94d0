//! Writing of a store of documents that were read.

ghost use Rattle.std.specs.Prelude.{◌≡◌, ◌++◌, IfOk, OnOk, map};
ghost use Rattle.cbor_view.specs.Shortest.{array_bytes};
ghost use Rattle.doc_store.specs.Document.{document_of};
ghost use Rattle.store_write.specs.Written.{document_bytes, store_bytes};

use crate::copies::put_stored_copies;
use crate::heads::{put_document_head, put_store_head};
use crate::room::store_room;
use cbor_write::{Build, count_of};
use doc_store::Document;
use mdoc_outside::{Memory, Octets};
use std::alloc::Global;

/// Appends a document.
#[tactic(auto, unfolding(crate::specs::Written::document_map, crate::specs::Written::document_head))]
fn put_document(alloc: Global, build: &mut Build, document: &Document<'_>) -> Result<(), Memory>
    ensures { OnOk result (build.new ≡ build.old ++ document_bytes (document_of document.now)) }
{
    put_document_head(build, document.doc_type(), document.uses_mac())?;
    put_stored_copies(alloc, build, document)
}

/// Appends the array of documents.
fn put_documents(alloc: Global, build: &mut Build, documents: &[Document<'_>]) -> Result<(), Memory>
    ensures { OnOk result (build.new ≡ build.old ++ array_bytes (map document_bytes (map document_of documents.now))) }
{
    build.array(count_of(documents.len())?)?;
    for document in documents {
        put_document(alloc, build, document)?;
    }
    Ok(())
}

/// The bytes of a store of these documents.
#[tactic(auto, unfolding(crate::specs::Written::store_map, crate::specs::Written::store_head))]
pub fn write_store(alloc: Global, documents: &[Document<'_>]) -> Result<Octets, Memory>
    ensures { IfOk result (λ b. b ≡ store_bytes (map document_of documents.now)) }
{
    let mut build = Build::with_room(alloc, store_room(documents))?;
    put_store_head(&mut build)?;
    put_documents(alloc, &mut build, documents)?;
    Ok(build.finish())
}

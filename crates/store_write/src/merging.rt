//! Merging of a package into a store.

ghost use Rattle.std.specs.Prelude.{◌≡◌, true, IfOk, Some, is_some};
ghost use Rattle.doc_store.specs.Store.{store as spelled_store};
ghost use Rattle.doc_store.specs.StoreView.{documents_in};
ghost use Rattle.store_write.specs.Answers.{Merges};
ghost use Rattle.store_write.specs.Merged.{documents_of, merged, merged_files};

use crate::documents::write_store;
use crate::merge_fault::MergeFault;
use crate::merged_documents::merged_documents;
use doc_store::{Store, StoreFault};
use mdoc_outside::{MOST_DOCUMENTS, MOST_FILE_BYTES, Memory, Octets};
use std::alloc::Global;

/// The store of bytes that spell one.
fn read(alloc: Global, bytes: &[u8]) -> Result<Store<'_>, Memory>
    requires { is_some (spelled_store bytes.now) ≡ true }
    ensures { IfOk result (λ read. documents_in read ≡ documents_of bytes.now) }
{
    match Store::read(alloc, bytes) {
        Ok(store) => Ok(store),
        Err(StoreFault::Form(_)) => unreachable!(),
        Err(StoreFault::Memory) => Err(Memory),
    }
}

/// The bytes of a store into which a package that was received is merged: a document of the package takes the place of the
/// store's document of its type, or goes last.
pub fn merge_stores(
    alloc: Global,
    own: &Store<'_>,
    received: &Store<'_>,
) -> Result<Octets, MergeFault>
    ensures { Merges (merged (documents_in own.now) (documents_in received.now)) result }
{
    let documents = merged_documents(alloc, own, received)?;
    if documents.len() > MOST_DOCUMENTS {
        return Err(MergeFault::Documents(documents.len() as u64));
    }
    let bytes = write_store(alloc, &documents)?;
    let length = bytes.as_slice().len();
    if length > MOST_FILE_BYTES {
        return Err(MergeFault::Bytes(length as u64));
    }
    Ok(bytes)
}

/// The same of files that spell stores. The merged file spells the merged store.
pub fn merge(alloc: Global, own: &[u8], received: &[u8]) -> Result<Octets, MergeFault>
    requires store { is_some (spelled_store own.now) ≡ true }
    requires received { is_some (spelled_store received.now) ≡ true }
    ensures merged { Merges (merged_files own.now received.now) result }
    ensures read { IfOk result (λ bytes. spelled_store bytes ≡ Some (merged_files own.now received.now)) }
{
    let own = read(alloc, own)?;
    let received = read(alloc, received)?;
    merge_stores(alloc, &own, &received)
}

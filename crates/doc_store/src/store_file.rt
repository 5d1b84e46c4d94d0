//! The file of a store, with its bytes.

ghost use Rattle.std.specs.Prelude.{◌≡◌, true, is_some};
ghost use Rattle.doc_store.specs.Store.{store};

use crate::StoreFault;
use crate::store::Store;
use mdoc_outside::Octets;
use std::alloc::Global;

/// Bytes that spell a store: the reading of a file, kept beside its bytes, so that no one reads it
/// again.
#[derive(Drop)]
pub struct StoreFile {
    bytes: Octets,
    ghost spelled: { is_some (store bytes) ≡ true },
}

impl StoreFile {
    ghost use Rattle.doc_store.specs.StoreView.{bytes_of_file, documents_in, documents_of_file, whole_file, ReadsStoreFile};

    /// The file, where its bytes spell a store, else its first fault in byte order.
    pub fn read(alloc: Global, bytes: Octets) -> Result<StoreFile, StoreFault>
        ensures { ReadsStoreFile result bytes }
    {
        match Store::read(alloc, bytes.as_slice()) {
            Ok(_) => Ok(StoreFile { bytes }),
            Err(fault) => Err(fault),
        }
    }

    /// The store.
    pub fn store(&self) -> Store<'_>
        ensures read { documents_in result ≡ documents_of_file self.now }
        ensures whole { (whole_file result).bytes ≡ bytes_of_file self.now }
    {
        Store {
            bytes: self.bytes.as_slice(),
        }
    }
}

//! The store of a holder.

ghost use Rattle.std.specs.Prelude.{◌≡◌, ◌<◌, ◌≤◌, true, Some, None, IfOk, IfSome, MatchOption, is_some, length, map, option_map, slice_get};
ghost use Rattle.std.specs.List.{AllByRecursion};
ghost use Rattle.cbor_view.specs.Items.{left};
ghost use Rattle.cbor_view.specs.Parts.{AllLieIn, LiesIn};
ghost use Rattle.mdoc_outside.specs.OptionSteps.{each};
ghost use Rattle.doc_store.specs.Document.{document_of, document_part};
ghost use Rattle.doc_store.specs.Held.{IsAt, document_found, document_place};
ghost use Rattle.doc_store.specs.Store.{document, store};

use crate::StoreFault;
use crate::document::Document;
use crate::document_fields::read_documents;
use crate::form_faults::first_fault_of;
use crate::listing::{count_of, item_at};
use cbor_view::{Items, View};
use mdoc_outside::Memory;
use std::alloc::Global;

/// A store: the documents of a holder, as their bytes spell them. It keeps the bytes, and looks at
/// them anew in each call.
#[derive(Clone, Copy)]
pub struct Store<'a> {
    pub(crate) bytes: &'a [u8],
    ghost spelled: { is_some (store bytes.now) ≡ true },
}

impl<'a> Store<'a> {
    ghost use Rattle.doc_store.specs.StoreView.{documents_in, whole_file, ReadsStore};

    /// The store that a file spells, else the file's first fault in byte order.
    pub fn read(alloc: Global, bytes: &'a [u8]) -> Result<Store<'a>, StoreFault>
        ensures read { ReadsStore result bytes.now }
        ensures whole { IfOk result (λ store. (whole_file store).bytes ≡ bytes.now) }
    {
        match first_fault_of(alloc, bytes)? {
            None => Ok(Store { bytes }),
            Some(fault) => Err(StoreFault::Form(fault)),
        }
    }

    /// The bytes of the file, which spell the store.
    pub fn bytes(&self) -> &'a [u8]
        ensures whole { result.now ≡ (whole_file self.now).bytes }
        ensures spelled { store result.now ≡ Some (documents_in self.now) }
    {
        self.bytes
    }

    /// How many documents there are, at most 16.
    pub fn documents(&self) -> usize
        ensures { result ≡ length (documents_in self.now) }
    {
        count_of(self.stored_documents())
    }

    /// The document at a place, in the order of the file.
    pub fn document(&self, n: usize) -> Document<'a>
        requires { n < length (documents_in self.now) }
        ensures exact { slice_get (documents_in self.now) n ≡ Some (document_of result) }
        ensures stands_in { LiesIn (whole_file self.now) (document_part result) }
    {
        match item_at(self.stored_documents(), n) {
            Some(stored) => Document { stored },
            None => unreachable!(),
        }
    }

    /// The documents, in the order of the file. The file is walked once, and the documents are kept in memory.
    pub fn list(&self, alloc: Global) -> Result<Vec<Document<'a>>, Memory>
        ensures exact { IfOk result (λ list. map document_of list.items ≡ documents_in self.now) }
        ensures lie { IfOk result (λ list. AllByRecursion (λ d. LiesIn (whole_file self.now) (document_part d)) list.items) }
    {
        let mut list = Vec::new(alloc);
        for stored in self.stored_documents() {
            list.push(Document { stored })?;
        }
        Ok(list)
    }

    /// The document of a type, if there is one.
    pub fn find(&self, doc_type: &str) -> Option<Document<'a>>
        ensures found { option_map document_of result
            ≡ document_found (documents_in self.now) doc_type.now }
        ensures place { MatchOption result
            (document_place (documents_in self.now) doc_type.now ≡ None)
            (λ d. IsAt (documents_in self.now) doc_type.now (document_of d)) }
        ensures stands_in { IfSome result (λ d. LiesIn (whole_file self.now) (document_part d)) }
    {
        for stored in self.stored_documents() {
            let document = Document { stored };
            if document.doc_type() == doc_type {
                return Some(document);
            }
        }
        None
    }

    fn stored_documents(&self) -> Items<'a>
        ensures given { each document (left result) ≡ Some (documents_in self.now) }
        ensures few { length (left result) ≤ 64 }
        ensures count { length (documents_in self.now) ≡ length (left result) }
        ensures lie { AllLieIn (whole_file self.now) (left result) }
    {
        match View::read(self.bytes) {
            Ok(file) => match read_documents(&file) {
                Some(documents) => documents,
                None => unreachable!(),
            },
            Err(_) => unreachable!(),
        }
    }
}

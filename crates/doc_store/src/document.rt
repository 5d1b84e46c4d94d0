//! A document of a store.

ghost use Rattle.std.specs.Prelude.{◌≡◌, ◌<◌, ◌≤◌, true, Some, is_some, length, slice_get};
ghost use Rattle.cbor_view.specs.Items.{left};
ghost use Rattle.cbor_view.specs.Parts.{AllLieIn, LiesIn};
ghost use Rattle.cbor_view.specs.View.{part};
ghost use Rattle.cbor_maps.specs.Contents.{IsPart};
ghost use Rattle.mdoc_outside.specs.OptionSteps.{each};
ghost use Rattle.doc_store.specs.Held.{chosen, is_unused};
ghost use Rattle.doc_store.specs.Parts.{value_or};
ghost use Rattle.doc_store.specs.Store.{copy, document};
ghost use Rattle.doc_store.specs.StoredCopy.{no_copy, copy_of, copy_part};

use crate::document_fields::{read_copies, read_doc_type, read_uses_mac};
use crate::listing::{count_of, item_at};
use crate::stored_copy::StoredCopy;
use cbor_view::{Items, View};

/// A document of a store: the copies of one document type, of which there are 1 to 64.
#[derive(Clone, Copy)]
pub struct Document<'a> {
    pub(crate) stored: View<'a>,
    ghost spelled: { is_some (document (part stored)) ≡ true },
}

impl<'a> Document<'a> {
    ghost use Rattle.doc_store.specs.Document.{document_of, document_part};

    /// How many bytes of its store it is.
    pub fn size(&self) -> usize
        ensures { result ≡ length (document_part self.now).bytes }
    {
        self.stored.raw().len()
    }

    /// The document type (ISO/IEC 18013-5, 8.3.2.1.2.1).
    pub fn doc_type(&self) -> &'a str
        ensures exact { result.now ≡ (document_of self.now).doc_type }
        ensures stands_in { IsPart (document_part self.now).bytes result.now }
    {
        match read_doc_type(&self.stored) {
            Some(doc_type) => doc_type,
            None => unreachable!(),
        }
    }

    /// Whether its device authentication is a MAC (ISO/IEC 18013-5, 9.1.3.5), and not a signature.
    pub fn uses_mac(&self) -> bool
        ensures { result ≡ (document_of self.now).uses_mac }
    {
        match read_uses_mac(&self.stored) {
            Some(uses_mac) => uses_mac,
            None => unreachable!(),
        }
    }

    /// How many copies there are, 1 to 64.
    pub fn copies(&self) -> usize
        ensures { result ≡ length (document_of self.now).copies }
    {
        count_of(self.stored_copies())
    }

    /// The copy at a place, in the order of the store.
    pub fn copy(&self, n: usize) -> StoredCopy<'a>
        requires { n < length (document_of self.now).copies }
        ensures exact { slice_get (document_of self.now).copies n ≡ Some (copy_of result) }
        ensures stands_in { LiesIn (document_part self.now) (copy_part result) }
    {
        match item_at(self.stored_copies(), n) {
            Some(stored) => StoredCopy { stored },
            None => unreachable!(),
        }
    }

    /// The place of the copy to show: the first unused one, or 0 where all are used.
    pub fn chosen(&self) -> usize
        ensures place { result ≡ chosen (document_of self.now) }
        ensures within { result < length (document_of self.now).copies }
    {
        let mut place = 0;
        for stored in self.stored_copies() {
            if is_unused(&stored) {
                return place;
            }
            place += 1;
        }
        0
    }

    #[tactic(auto, using(crate::proofs::EachPart::each_length))]
    fn stored_copies(&self) -> Items<'a>
        ensures given { each copy (left result) ≡ Some (document_of self.now).copies }
        ensures few { length (left result) ≤ 64 }
        ensures some { 0 < length (left result) }
        ensures count { length (document_of self.now).copies ≡ length (left result) }
        ensures lie { AllLieIn (document_part self.now) (left result) }
    {
        match read_copies(&self.stored) {
            Some(copies) => copies,
            None => unreachable!(),
        }
    }
}

/// Whether a copy is unused.
fn is_unused(stored: &View<'_>) -> bool
    requires { is_some (copy (part stored.now)) ≡ true }
    ensures { result ≡ is_unused (value_or no_copy copy (part stored.now)) }
{
    !StoredCopy { stored: *stored }.used()
}

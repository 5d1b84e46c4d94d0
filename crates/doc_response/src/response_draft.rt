//! A response that is being put together.

ghost use Rattle.std.specs.Prelude.{◌≡◌, ◌<◌, ◌^◌, length, map, OnOk};
ghost use Rattle.std.specs.List.{list_any};
ghost use Rattle.doc_response.specs.AnsweredView.{element_seen};
ghost use Rattle.doc_response.specs.Draft.{has_missing, is_element};
ghost use Rattle.doc_response.specs.DraftView.{document_seen};

use crate::draft_document::DraftDocument;
use crate::{AnsweredDocument, DeviceAuth, MissingElement};
use mdoc_outside::Memory;
use std::alloc::Global;
use std::marker::Model;

/// What has a spelling is shorter than this.
const SPELLED: usize = 1 << 32;

/// A response that is being put together (DeviceResponse; ISO/IEC 18013-5, 8.3.2.1.2.2), which a contract sees as
/// lists. A text of 2^32 bytes or more has no spelling here, and is answered by want of memory.
#[derive(Drop)]
pub struct ResponseDraft<'a> {
    status: u64,
    documents: Vec<DraftDocument<'a>>,
    nothing: Vec<&'a str>,
    alloc: Global,
}

impl<'a> Model for ResponseDraft<'a> {
    ghost use Rattle.std.specs.Prelude.{map};
    ghost use Rattle.doc_response.specs.AnsweredView.{text_seen};
    ghost use Rattle.doc_response.specs.Draft.{Draft};
    ghost use Rattle.doc_response.specs.DraftView.{document_seen};

    ghost Value = { Draft };

    ghost view = { λ d. record { status = d.status; documents = map document_seen d.documents.items; nothing = map text_seen d.nothing.items } };
}

/// Whether the last of the documents lacks that element.
#[tactic(auto, using(crate::proofs::LastDocument::has_last, crate::proofs::LastDocument::has_none))]
fn last_has_missing(documents: &[DraftDocument<'_>], ns: &str, name: &str) -> bool
    ensures { result ≡ has_missing ns.now name.now (map document_seen documents.now) }
{
    if documents.is_empty() {
        return false;
    }
    let last = &documents[documents.len() - 1];
    is_missing(last.answered.missing_elements(), ns, name)
}

/// Whether an element is one of these.
fn is_missing(missing: &[MissingElement<'_>], ns: &str, name: &str) -> bool
    ensures { result ≡ list_any (is_element ns.now name.now) (map element_seen missing.now) }
{
    for element in missing {
        if element.ns == ns && element.name == name {
            return true;
        }
    }
    false
}

/// Refuses a text that has no spelling.
fn spelled(text: &str) -> Result<(), Memory>
    ensures { OnOk result (length text.now < 2 ^ 32) }
{
    if text.len() < SPELLED {
        Ok(())
    } else {
        Err(Memory)
    }
}

impl<'a> ResponseDraft<'a> {
    ghost use Rattle.std.specs.Prelude.{◌≡◌, ◌<◌, ◌≤◌, ◌^◌, ◌↔◌, IsTrue, false, length, map, OnOk, OnErr, IsOk};
    ghost use Rattle.cbor_view.specs.Reading.{reads, tree_of};
    ghost use Rattle.cbor_view.specs.Tree.{levels};
    ghost use Rattle.issuer_items.specs.Item.{item};
    ghost use Rattle.doc_response.specs.AnsweredView.{text_seen};
    ghost use Rattle.doc_response.specs.DraftView.{document_seen};
    ghost use Rattle.doc_response.specs.Draft.{empty_draft, with_document, with_nothing, with_last, and_item, and_missing, has_missing};

    /// A response of that status (table 8) with nothing in it yet; takes no memory.
    pub fn new(alloc: Global, status: u64) -> ResponseDraft<'a>
        ensures { result ≡ empty_draft status }
    {
        ResponseDraft {
            status,
            documents: Vec::new(alloc),
            nothing: Vec::new(alloc),
            alloc,
        }
    }

    /// The status.
    pub fn status(&self) -> u64
        ensures { result ≡ self.now.status }
    {
        self.status
    }

    /// Whether a document was added, to which items may be.
    pub fn has_document(&self) -> bool
        ensures { IsTrue result ↔ (0 < length self.now.documents) }
    {
        !self.documents().is_empty()
    }

    /// Whether the last document lacks that element already.
    pub fn has_missing(&self, ns: &str, name: &str) -> bool
        ensures { result ≡ has_missing ns.now name.now self.now.documents }
    {
        last_has_missing(self.documents(), ns, name)
    }

    /// The documents that were added.
    pub(crate) fn documents(&self) -> &[DraftDocument<'a>]
        ensures { map document_seen result.now ≡ self.now.documents }
    {
        &self.documents
    }

    /// The types that were added of documents of which nothing is returned.
    pub(crate) fn types_of_nothing(&self) -> &[&'a str]
        ensures { map text_seen result.now ≡ self.now.nothing }
    {
        &self.nothing
    }

    /// Adds a document, with the issuer's signature as it is stored and the device's authentication. Of one that
    /// is given no item the response says that nothing is returned.
    pub fn document(
        &mut self,
        doc_type: &'a str,
        issuer_auth: &'a [u8],
        auth: DeviceAuth,
    ) -> Result<(), Memory>
        requires item { IsOk (reads issuer_auth.now) }
        requires nesting { levels (tree_of issuer_auth.now) ≤ 28 }
        ensures ok { OnOk result (self.new ≡ with_document doc_type.now issuer_auth.now auth self.old) }
        ensures short { OnOk result (length doc_type.now < 2 ^ 32) }
        ensures err { OnErr result (self.new ≡ self.old) }
    {
        spelled(doc_type)?;
        let answered = AnsweredDocument::new(self.alloc, doc_type);
        self.documents.push(DraftDocument {
            answered,
            issuer_auth,
            auth,
        })?;
        Ok(())
    }

    /// Adds an item to the last document, as the bytes that are stored.
    pub fn item(&mut self, ns: &'a str, raw: &'a [u8]) -> Result<(), Memory>
        requires document { 0 < length self.old.documents }
        requires item { IsOk (item raw.now) }
        ensures ok { OnOk result (self.new ≡ with_last (and_item ns.now raw.now) self.old) }
        ensures short { OnOk result (length ns.now < 2 ^ 32) }
        ensures kept { length self.new.documents ≡ length self.old.documents }
        ensures err { OnErr result (self.new ≡ self.old) }
    {
        spelled(ns)?;
        let last = self.documents.len() - 1;
        self.documents[last].answered.item(ns, raw)
    }

    /// Adds to the last document an element that isn't released, with error code 0.
    pub fn missing(&mut self, ns: &'a str, name: &'a str) -> Result<(), Memory>
        requires document { 0 < length self.old.documents }
        requires distinct { has_missing ns.now name.now self.old.documents ≡ false }
        ensures ok { OnOk result (self.new ≡ with_last (and_missing ns.now name.now) self.old) }
        ensures short { OnOk result ((length ns.now < 2 ^ 32) × (length name.now < 2 ^ 32)) }
        ensures kept { length self.new.documents ≡ length self.old.documents }
        ensures err { OnErr result (self.new ≡ self.old) }
    {
        spelled(ns)?;
        spelled(name)?;
        let last = self.documents.len() - 1;
        self.documents[last].answered.missing(ns, name)
    }

    /// Adds the type of a document of which nothing is returned.
    pub fn nothing(&mut self, doc_type: &'a str) -> Result<(), Memory>
        ensures ok { OnOk result (self.new ≡ with_nothing doc_type.now self.old) }
        ensures short { OnOk result (length doc_type.now < 2 ^ 32) }
        ensures err { OnErr result (self.new ≡ self.old) }
    {
        spelled(doc_type)?;
        self.nothing.push(doc_type)?;
        Ok(())
    }
}

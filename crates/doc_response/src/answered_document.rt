//! What is answered of one document.

use crate::{MissingElement, ReleasedItem};
use mdoc_outside::Memory;
use std::alloc::Global;
use std::marker::Model;

/// What is answered of a document that is asked for, in the order asked: the released items and the elements that
/// aren't released, which a contract sees as lists.
#[derive(Drop)]
pub struct AnsweredDocument<'a> {
    doc_type: &'a str,
    items: Vec<ReleasedItem<'a>>,
    missing: Vec<MissingElement<'a>>,
}

impl<'a> Model for AnsweredDocument<'a> {
    ghost use Rattle.std.specs.Prelude.{map};
    ghost use Rattle.doc_response.specs.Answered.{Answered};
    ghost use Rattle.doc_response.specs.AnsweredView.{item_seen, element_seen};

    ghost Value = { Answered };

    ghost view = { λ d. record { doc_type = d.doc_type.now; items = map item_seen d.items.items; missing = map element_seen d.missing.items } };
}

impl<'a> AnsweredDocument<'a> {
    ghost use Rattle.std.specs.Prelude.{◌≡◌, [], map, OnOk, OnErr};
    ghost use Rattle.doc_response.specs.AnsweredView.{item_seen, element_seen};
    ghost use Rattle.doc_response.specs.Draft.{and_item, and_missing};

    /// A document of which nothing is answered yet; takes no memory.
    pub fn new(alloc: Global, doc_type: &'a str) -> AnsweredDocument<'a>
        ensures { result ≡ record { doc_type = doc_type.now; items = []; missing = [] } }
    {
        AnsweredDocument {
            doc_type,
            items: Vec::new(alloc),
            missing: Vec::new(alloc),
        }
    }

    /// Adds a released item, as the bytes that are stored.
    pub fn item(&mut self, ns: &'a str, raw: &'a [u8]) -> Result<(), Memory>
        ensures ok { OnOk result (self.new ≡ and_item ns.now raw.now self.old) }
        ensures err { OnErr result (self.new ≡ self.old) }
    {
        self.items.push(ReleasedItem { ns, raw })?;
        Ok(())
    }

    /// Adds an element that isn't released.
    pub fn missing(&mut self, ns: &'a str, name: &'a str) -> Result<(), Memory>
        ensures ok { OnOk result (self.new ≡ and_missing ns.now name.now self.old) }
        ensures err { OnErr result (self.new ≡ self.old) }
    {
        self.missing.push(MissingElement { ns, name })?;
        Ok(())
    }

    /// The document type.
    pub fn doc_type(&self) -> &'a str
        ensures { result.now ≡ self.now.doc_type }
    {
        self.doc_type
    }

    /// The released items.
    pub fn items(&self) -> &[ReleasedItem<'a>]
        ensures { map item_seen result.now ≡ self.now.items }
    {
        &self.items
    }

    /// The elements that aren't released.
    pub fn missing_elements(&self) -> &[MissingElement<'a>]
        ensures { map element_seen result.now ≡ self.now.missing }
    {
        &self.missing
    }
}

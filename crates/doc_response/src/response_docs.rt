//! The documents of a response.

ghost use Rattle.std.specs.Prelude.{◌≡◌, None};
ghost use Rattle.std.specs.Iterator.{YieldsFirstBy, item_count};
ghost use Rattle.doc_response.specs.Faults.{fault_in};
ghost use Rattle.doc_response.specs.Response.{documents_of};
ghost use Rattle.doc_response.specs.ResponseView.{items_or_none};

use crate::ResponseDoc;
use crate::reading::read_document;
use crate::response_items::first_item;
use cbor_view::Items;

/// The documents of a response in their order.
#[derive(Clone, Copy)]
pub struct ResponseDocs<'a> {
    pub(crate) documents: Option<Items<'a>>,
    ghost read: { fault_in (documents_of (items_or_none documents)) ≡ None },
}

impl<'a> Iterator for ResponseDocs<'a> {
    ghost use Rattle.doc_response.specs.ResponseDocs.{document_seen, documents_left};

    type Item = ResponseDoc<'a>;

    ghost next_gives = { YieldsFirstBy document_seen documents_left };

    ghost remaining = { item_count documents_left };

    #[tactic(auto, using(crate::proofs::FirstFaults::first_read, crate::proofs::FirstFaults::others_read, crate::proofs::FirstFaults::read_first))]
    fn next(&mut self) -> Option<ResponseDoc<'a>> {
        let (item, rest) = first_item(self.documents)?;
        *self = ResponseDocs {
            documents: Some(rest),
        };
        match read_document(item) {
            Ok(document) => Some(document),
            Err(_) => unreachable!(),
        }
    }
}

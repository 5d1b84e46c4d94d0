//! The documents of a request.

ghost use Rattle.std.specs.Prelude.{◌≡◌};
ghost use Rattle.std.specs.Iterator.{YieldsFirstBy, item_count};

use crate::DocAsk;
use cbor_view::Items;

/// The documents of a request, in the order of its bytes.
#[derive(Clone, Copy)]
pub struct Documents<'a> {
    pub(crate) requests: Items<'a>,
}

impl<'a> Iterator for Documents<'a> {
    ghost use Rattle.doc_request.specs.Views.{document_seen, documents_left};

    type Item = DocAsk<'a>;

    ghost next_gives = { YieldsFirstBy document_seen documents_left };

    ghost remaining = { item_count documents_left };

    fn next(&mut self) -> Option<DocAsk<'a>> {
        let mut requests = self.requests;
        while let Some(request) = requests.next() {
            match DocAsk::read(&request) {
                Some(document) => {
                    *self = Documents { requests };
                    return Some(document);
                }
                None => {}
            }
        }
        *self = Documents { requests };
        None
    }
}

//! A request.

ghost use Rattle.std.specs.Prelude.{◌≡◌, ◌≤◌, length};
ghost use Rattle.cbor_view.specs.Items.{left};
ghost use Rattle.cbor_view.specs.Reading.{Gives};
ghost use Rattle.cbor_view.specs.View.{part};
ghost use Rattle.doc_request.specs.Asked.{request, wishes_from};

use crate::faults::{request_fault, sound_requests};
use crate::{Documents, RequestFault, Wishes};
use cbor_view::{Items, View};

/// What a reader asks for (DeviceRequest; ISO/IEC 18013-5, 8.3.2.1.2.1), borrowed from the bytes that spell it: 1 to
/// 16 documents, each with 1 to 512 elements.
#[derive(Clone, Copy)]
pub struct Request<'a> {
    pub(crate) requests: Items<'a>,
    ghost few: { length (left requests) ≤ 16 },
}

impl<'a> Request<'a> {
    ghost use Rattle.doc_request.specs.Views.{documents_left, documents_of};
    ghost use Rattle.doc_request.specs.WishesView.{wishes_left};

    /// The request that an item is, else the first check that fails, and of one check the first place.
    pub fn read(v: View<'a>) -> Result<Request<'a>, RequestFault>
        ensures { Gives documents_of result (request (part v.entry)) }
    {
        match request_fault(&v) {
            Some(fault) => Err(fault),
            None => {
                let requests = sound_requests(&v);
                Ok(Request { requests })
            }
        }
    }

    /// The documents, in the order of the bytes.
    pub fn documents(&self) -> Documents<'a>
        ensures { documents_left result ≡ documents_of self.now }
    {
        let requests = self.requests;
        Documents { requests }
    }

    /// The wishes, each with the place of its document, from 0, in the order of the bytes.
    pub fn wishes(&self) -> Wishes<'a>
        ensures { wishes_left result ≡ wishes_from 0 (documents_of self.now) }
    {
        let place = 0;
        let doc_type = "";
        let elements = None;
        let next_place = 0;
        let documents = self.documents();
        Wishes {
            place,
            doc_type,
            elements,
            next_place,
            documents,
        }
    }
}

//! A response that was read.

ghost use Rattle.std.specs.Prelude.{◌≡◌};
ghost use Rattle.cbor_view.specs.Reading.{Gives};
ghost use Rattle.cbor_view.specs.View.{part};
ghost use Rattle.doc_response.specs.Response.{response};

use crate::reading::{is_version, read_both};
use crate::{ResponseDocs, ResponseErrors, ResponseFault};
use cbor_maps::NamedMap;
use cbor_view::View;
use mdoc_outside::KeyName;

/// A response (DeviceResponse; ISO/IEC 18013-5, 8.3.2.1.2.2), borrowed from the bytes that spell it.
#[derive(Clone, Copy)]
pub struct Response<'a> {
    pub(crate) status: u64,
    pub(crate) documents: ResponseDocs<'a>,
    pub(crate) errors: ResponseErrors<'a>,
}

impl<'a> Response<'a> {
    ghost use Rattle.doc_response.specs.ResponseDocs.{documents_left};
    ghost use Rattle.doc_response.specs.ResponseErrors.{errors_left};
    ghost use Rattle.doc_response.specs.ResponseRead.{response_seen};

    /// The response that an item is, else the first of its faults. The form of items and of signatures isn't looked
    /// at.
    #[tactic(auto, unfolding(crate::specs::Response::response))]
    pub fn read(v: View<'a>) -> Result<Response<'a>, ResponseFault>
        ensures { Gives response_seen result (response (part v.entry)) }
    {
        let map = NamedMap::new(
            &v,
            &[
                KeyName::Version,
                KeyName::Documents,
                KeyName::DocumentErrors,
                KeyName::Status,
            ],
        );
        match read_both(&map) {
            Ok(((version, documents), (errors, status))) => {
                if is_version(version) {
                    Ok(Response {
                        status,
                        documents,
                        errors,
                    })
                } else {
                    Err(ResponseFault::Version)
                }
            }
            Err(fault) => Err(fault),
        }
    }

    /// The status (8.3.2.1.2.3, table 8).
    pub fn status(&self) -> u64
        ensures { result ≡ (response_seen self.now).status }
    {
        self.status
    }

    /// The documents in their order.
    pub fn documents(&self) -> ResponseDocs<'a>
        ensures { documents_left result ≡ (response_seen self.now).documents }
    {
        self.documents
    }

    /// The errors of document types in their order, each with its code.
    pub fn errors(&self) -> ResponseErrors<'a>
        ensures { errors_left result ≡ (response_seen self.now).errors }
    {
        self.errors
    }
}

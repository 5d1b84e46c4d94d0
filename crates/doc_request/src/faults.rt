//! The first check of a request that fails.

ghost use Rattle.std.specs.Prelude.{◌≡◌, ◌≤◌, length, None};
ghost use Rattle.mdoc_outside.specs.declared.key_name.KeyName.TheVariants as keys;
ghost use Rattle.cbor_view.specs.Items.{left};
ghost use Rattle.cbor_view.specs.Parts.{cbor, items_in, text_in};
ghost use Rattle.cbor_view.specs.View.{part};
ghost use Rattle.cbor_maps.specs.NamedMap.{whole_map};
ghost use Rattle.cbor_maps.specs.Reading.{field, map_in, encoded_in};
ghost use Rattle.doc_request.specs.Asked.{document_fault, first_fault, is_version, items_fault, of_cbor, of_documents, of_encoded, of_spaces, of_version, request_fault, requests_in};
ghost use Rattle.doc_request.specs.Spaces.{entries, is_count, spaces_fault};

use crate::RequestFault;
use crate::checks::{earlier, of_field, unless};
use crate::spaces::spaces_fault;
use cbor_maps::NamedMap;
use cbor_view::{Items, View};
use mdoc_outside::{KeyName, MOST_DOCUMENTS};

/// What is wrong with a request.
pub(crate) fn request_fault(item: &View<'_>) -> Option<RequestFault>
    ensures { result ≡ request_fault (part item.now) }
{
    let map = NamedMap::new(item, &[KeyName::Version, KeyName::DocRequests]);
    let version = of_field(&map.text(KeyName::Version));
    let requests = of_field(&map.items(KeyName::DocRequests));
    let documents = documents_fault(&map);
    earlier(
        version,
        earlier(requests, earlier(version_fault(&map), documents)),
    )
}

/// What is wrong with the version of a request.
fn version_fault(map: &NamedMap<'_>) -> Option<RequestFault>
    ensures { result ≡ of_version (field keys.Version text_in (whole_map map.now)) }
{
    match map.text(KeyName::Version) {
        Ok(version) => unless(is_version(version), RequestFault::Version),
        Err(_) => None,
    }
}

/// Whether a version begins with `1.`.
fn is_version(version: &str) -> bool
    ensures { result ≡ is_version version.now }
{
    match version.as_bytes() {
        [major, point, ..] => *major == b'1' && *point == b'.',
        _ => false,
    }
}

/// What is wrong with the documents of a request: how many they are, or what one of them is.
fn documents_fault(map: &NamedMap<'_>) -> Option<RequestFault>
    ensures { result ≡ of_documents (field keys.DocRequests items_in (whole_map map.now)) }
{
    match map.items(KeyName::DocRequests) {
        Ok(requests) => earlier(
            unless(is_count(requests), RequestFault::Count),
            first_fault(requests),
        ),
        Err(_) => None,
    }
}

/// Whether the documents are 1 to 16.
fn is_count(requests: Items<'_>) -> bool
    ensures { result ≡ is_count 16 (left requests.entry) }
{
    let mut count = 0;
    for _request in requests {
        if count == MOST_DOCUMENTS {
            return false;
        }
        count += 1;
    }
    count > 0
}

/// What is wrong with one of the documents.
fn first_fault(requests: Items<'_>) -> Option<RequestFault>
    ensures { result ≡ first_fault (left requests.entry) }
{
    let mut found = None;
    for request in requests {
        found = earlier(found, document_fault(&request));
    }
    found
}

/// What is wrong with a document's request.
fn document_fault(request: &View<'_>) -> Option<RequestFault>
    ensures { result ≡ document_fault (part request.now) }
{
    let map = NamedMap::new(request, &[KeyName::ItemsRequest, KeyName::ReaderAuth]);
    let inside = of_field(&map.encoded(KeyName::ItemsRequest));
    let reader_auth = of_field(&map.optional_item(KeyName::ReaderAuth));
    earlier(inside, earlier(reader_auth, inside_fault(&map)))
}

/// What is wrong inside the items request of a document.
fn inside_fault(map: &NamedMap<'_>) -> Option<RequestFault>
    ensures { result ≡ of_encoded (field keys.ItemsRequest encoded_in (whole_map map.now)) }
{
    match map.encoded(KeyName::ItemsRequest) {
        Ok(inside) => encoded_fault(inside),
        Err(_) => None,
    }
}

/// What is wrong with the item that is encoded in an items request.
fn encoded_fault(inside: &[u8]) -> Option<RequestFault>
    ensures { result ≡ of_cbor (cbor inside.now) }
{
    match View::read(inside) {
        Ok(request) => items_fault(&request),
        Err(fault) => Some(RequestFault::Inner(fault)),
    }
}

/// What is wrong with an items request.
fn items_fault(request: &View<'_>) -> Option<RequestFault>
    ensures { result ≡ items_fault (part request.now) }
{
    let map = NamedMap::new(
        request,
        &[KeyName::DocType, KeyName::NameSpaces, KeyName::RequestInfo],
    );
    let doc_type = of_field(&map.text(KeyName::DocType));
    let spaces = of_field(&map.map(KeyName::NameSpaces));
    let info = of_field(&map.optional_item(KeyName::RequestInfo));
    earlier(
        doc_type,
        earlier(spaces, earlier(info, namespaces_fault(&map))),
    )
}

/// What is wrong with the namespaces of an items request.
fn namespaces_fault(map: &NamedMap<'_>) -> Option<RequestFault>
    ensures { result ≡ of_spaces (field keys.NameSpaces map_in (whole_map map.now)) }
{
    match map.map(KeyName::NameSpaces) {
        Ok(spaces) => map_fault(&spaces),
        Err(_) => None,
    }
}

/// What is wrong with the map of namespaces.
fn map_fault(spaces: &View<'_>) -> Option<RequestFault>
    ensures { result ≡ spaces_fault (entries (part spaces.now)) }
{
    match spaces.pairs() {
        Some(spaces) => spaces_fault(spaces),
        None => Some(RequestFault::Count),
    }
}

/// The documents of a request with which nothing is wrong.
#[tactic(auto, using(crate::proofs::FirstFaults::sound))]
pub(crate) fn sound_requests<'a>(item: &View<'a>) -> Items<'a>
    requires { request_fault (part item.now) ≡ None }
    ensures exact { left result ≡ requests_in (part item.now) }
    ensures few { length (left result) ≤ 16 }
{
    let map = NamedMap::new(item, &[KeyName::DocRequests]);
    match map.items(KeyName::DocRequests) {
        Ok(requests) => requests,
        Err(_) => unreachable!(),
    }
}

//! The maps of a response, each with the first of its faults.

ghost use Rattle.std.specs.Prelude.{◌≡◌, true, IfOk};
ghost use Rattle.cbor_view.specs.Items.{left};
ghost use Rattle.cbor_view.specs.Reading.{Gives};
ghost use Rattle.cbor_view.specs.View.{part};
ghost use Rattle.cbor_maps.specs.NamedMap.{whole_map};
ghost use Rattle.doc_response.specs.Faults.{fault_in};
ghost use Rattle.doc_response.specs.Response.{authenticated, both_read, device, device_namespaces, device_signed, document, document_errors, documents, documents_of, element_errors, is_version, issued_document, issuer, issuer_signed, namespaces, outcome, versioned};
ghost use Rattle.doc_response.specs.ResponseDocs.{device_seen, document_seen, documents_left, issuer_seen};
ghost use Rattle.doc_response.specs.ResponseErrors.{errors_left};
ghost use Rattle.doc_response.specs.ResponseView.{are_namespaces, namespaces_of, pairs_or_none};

use crate::device_part::DevicePart;
use crate::faults::{fault_of, first_fault, first_of};
use crate::issuer_part::IssuerPart;
use crate::kinds::{are_element_errors, are_error_maps, are_namespaces, if_map};
use crate::{ResponseDoc, ResponseDocs, ResponseErrors, ResponseFault};
use cbor_maps::NamedMap;
use cbor_view::{Items, Pairs, View};
use mdoc_outside::KeyName;

/// The namespaces of the items, where there are any.
#[tactic(auto, using(crate::proofs::Each::read_some, crate::proofs::Each::read_none))]
fn read_namespaces<'a>(map: &NamedMap<'a>) -> Result<Option<Pairs<'a>>, ResponseFault>
    ensures exact { Gives (λ o. namespaces_of (pairs_or_none o)) result (namespaces (whole_map map.now)) }
    ensures spelled { IfOk result (λ o. are_namespaces (pairs_or_none o) ≡ true) }
{
    match map.optional_item(KeyName::NameSpaces) {
        Ok(None) => Ok(None),
        Ok(Some(value)) => match value.pairs() {
            Some(pairs) => {
                if are_namespaces(pairs) {
                    Ok(Some(pairs))
                } else {
                    Err(ResponseFault::Field(KeyName::NameSpaces))
                }
            }
            None => Err(ResponseFault::Field(KeyName::NameSpaces)),
        },
        Err(fault) => Err(fault_of(fault)),
    }
}

/// What the issuer signed (IssuerSigned; ISO/IEC 18013-5, 8.3.2.1.2.2).
fn read_issuer_signed(value: View<'_>) -> Result<IssuerPart<'_>, ResponseFault>
    ensures { Gives issuer_seen result (issuer_signed (part value.entry)) }
{
    let map = NamedMap::new(&value, &[KeyName::NameSpaces, KeyName::IssuerAuth]);
    match (read_namespaces(&map), map.item(KeyName::IssuerAuth)) {
        (Ok(namespaces), Ok(auth)) => Ok(IssuerPart { namespaces, auth }),
        (Ok(_), Err(fault)) => Err(fault_of(fault)),
        (Err(fault), Ok(_)) => Err(fault),
        (Err(fault), Err(other)) => Err(first_of(fault, fault_of(other))),
    }
}

/// The bytes of the map of namespaces that the device signed (9.1.3.4).
fn read_device_namespaces<'a>(map: &NamedMap<'a>) -> Result<&'a [u8], ResponseFault>
    ensures { Gives (λ b. b.now) result (device_namespaces (whole_map map.now)) }
{
    match map.encoded(KeyName::NameSpaces) {
        Ok(bytes) => match if_map(bytes) {
            Some(bytes) => Ok(bytes),
            None => Err(ResponseFault::Field(KeyName::NameSpaces)),
        },
        Err(fault) => Err(fault_of(fault)),
    }
}

/// What the device signed (DeviceSigned; 8.3.2.1.2.2).
fn read_device_signed(value: View<'_>) -> Result<DevicePart<'_>, ResponseFault>
    ensures { Gives device_seen result (device_signed (part value.entry)) }
{
    let map = NamedMap::new(&value, &[KeyName::NameSpaces, KeyName::DeviceAuth]);
    match (read_device_namespaces(&map), map.map(KeyName::DeviceAuth)) {
        (Ok(namespaces), Ok(auth)) => Ok(DevicePart { namespaces, auth }),
        (Ok(_), Err(fault)) => Err(fault_of(fault)),
        (Err(fault), Ok(_)) => Err(fault),
        (Err(fault), Err(other)) => Err(first_of(fault, fault_of(other))),
    }
}

/// The map of what the issuer signed.
fn read_issuer<'a>(map: &NamedMap<'a>) -> Result<IssuerPart<'a>, ResponseFault>
    ensures { Gives issuer_seen result (issuer (whole_map map.now)) }
{
    match map.map(KeyName::IssuerSigned) {
        Ok(value) => read_issuer_signed(value),
        Err(fault) => Err(fault_of(fault)),
    }
}

/// The map of what the device signed.
fn read_device<'a>(map: &NamedMap<'a>) -> Result<DevicePart<'a>, ResponseFault>
    ensures { Gives device_seen result (device (whole_map map.now)) }
{
    match map.map(KeyName::DeviceSigned) {
        Ok(value) => read_device_signed(value),
        Err(fault) => Err(fault_of(fault)),
    }
}

/// The errors of the document's elements, which have no reader.
fn read_element_errors(map: &NamedMap<'_>) -> Result<(), ResponseFault>
    ensures { Gives (λ u. tt) result (element_errors (whole_map map.now)) }
{
    match map.optional_item(KeyName::Errors) {
        Ok(None) => Ok(()),
        Ok(Some(value)) => {
            if are_element_errors(value) {
                Ok(())
            } else {
                Err(ResponseFault::Field(KeyName::Errors))
            }
        }
        Err(fault) => Err(fault_of(fault)),
    }
}

/// The document type with what the issuer signed.
fn read_issued<'a>(map: &NamedMap<'a>) -> Result<(&'a str, IssuerPart<'a>), ResponseFault>
    ensures { Gives (λ r. (r.0.now, issuer_seen r.1)) result (issued_document (whole_map map.now)) }
{
    match (map.text(KeyName::DocType), read_issuer(map)) {
        (Ok(doc_type), Ok(issuer)) => Ok((doc_type, issuer)),
        (Ok(_), Err(fault)) => Err(fault),
        (Err(fault), Ok(_)) => Err(fault_of(fault)),
        (Err(fault), Err(other)) => Err(first_of(fault_of(fault), other)),
    }
}

/// What the device signed, where the errors are in their form too.
fn read_authenticated<'a>(map: &NamedMap<'a>) -> Result<DevicePart<'a>, ResponseFault>
    ensures { Gives device_seen result (authenticated (whole_map map.now)) }
{
    match (read_device(map), read_element_errors(map)) {
        (Ok(device), Ok(())) => Ok(device),
        (Ok(_), Err(fault)) => Err(fault),
        (Err(fault), Ok(())) => Err(fault),
        (Err(fault), Err(other)) => Err(first_of(fault, other)),
    }
}

/// The document (Document; 8.3.2.1.2.2) that an item is.
#[tactic(auto, unfolding(crate::specs::Response::document))]
pub(crate) fn read_document(item: View<'_>) -> Result<ResponseDoc<'_>, ResponseFault>
    ensures { Gives document_seen result (document (part item.entry)) }
{
    let map = NamedMap::new(
        &item,
        &[
            KeyName::DocType,
            KeyName::IssuerSigned,
            KeyName::DeviceSigned,
            KeyName::Errors,
        ],
    );
    match (read_issued(&map), read_authenticated(&map)) {
        (Ok((doc_type, issuer)), Ok(device)) => Ok(ResponseDoc {
            doc_type,
            issuer,
            device,
        }),
        (Ok(_), Err(fault)) => Err(fault),
        (Err(fault), Ok(_)) => Err(fault),
        (Err(fault), Err(other)) => Err(first_of(fault, other)),
    }
}

/// The fault of a document, where it has one.
fn document_fault(item: View<'_>) -> Option<ResponseFault>
    ensures { result ≡ fault_in (document (part item.entry)) }
{
    match read_document(item) {
        Ok(_) => None,
        Err(fault) => Some(fault),
    }
}

/// The first fault of documents, where they have one.
#[tactic(auto, using(crate::proofs::FirstFaults::one_more, crate::proofs::FirstFaults::no_more))]
fn documents_fault(items: Items<'_>) -> Option<ResponseFault>
    ensures { result ≡ fault_in (documents_of (left items.entry)) }
{
    let mut fault = None;
    for item in items {
        fault = first_fault(fault, document_fault(item));
    }
    fault
}

/// The documents, where there are any.
#[tactic(auto, using(crate::proofs::FirstFaults::without_fault, crate::proofs::FirstFaults::with_fault))]
fn read_documents<'a>(map: &NamedMap<'a>) -> Result<ResponseDocs<'a>, ResponseFault>
    ensures { Gives documents_left result (documents (whole_map map.now)) }
{
    match map.optional_item(KeyName::Documents) {
        Ok(None) => Ok(ResponseDocs { documents: None }),
        Ok(Some(value)) => match value.items() {
            Some(items) => match documents_fault(items) {
                None => Ok(ResponseDocs {
                    documents: Some(items),
                }),
                Some(fault) => Err(fault),
            },
            None => Err(ResponseFault::Field(KeyName::Documents)),
        },
        Err(fault) => Err(fault_of(fault)),
    }
}

/// The errors of document types, where there are any.
#[tactic(auto, using(crate::proofs::Each::read_some, crate::proofs::Each::read_none))]
fn read_document_errors<'a>(map: &NamedMap<'a>) -> Result<ResponseErrors<'a>, ResponseFault>
    ensures { Gives errors_left result (document_errors (whole_map map.now)) }
{
    match map.optional_item(KeyName::DocumentErrors) {
        Ok(None) => Ok(ResponseErrors {
            errors: None,
            maps: None,
        }),
        Ok(Some(value)) => match value.items() {
            Some(items) => {
                if are_error_maps(items) {
                    Ok(ResponseErrors {
                        errors: None,
                        maps: Some(items),
                    })
                } else {
                    Err(ResponseFault::Field(KeyName::DocumentErrors))
                }
            }
            None => Err(ResponseFault::Field(KeyName::DocumentErrors)),
        },
        Err(fault) => Err(fault_of(fault)),
    }
}

/// Whether a version begins with `1.`.
pub(crate) fn is_version(version: &str) -> bool
    ensures { result ≡ is_version version.now }
{
    match version.as_bytes() {
        [one, dot, ..] => *one == b'1' && *dot == b'.',
        _ => false,
    }
}

/// The version with the documents.
fn read_versioned<'a>(map: &NamedMap<'a>) -> Result<(&'a str, ResponseDocs<'a>), ResponseFault>
    ensures { Gives (λ r. (r.0.now, documents_left r.1)) result (versioned (whole_map map.now)) }
{
    match (map.text(KeyName::Version), read_documents(map)) {
        (Ok(version), Ok(documents)) => Ok((version, documents)),
        (Ok(_), Err(fault)) => Err(fault),
        (Err(fault), Ok(_)) => Err(fault_of(fault)),
        (Err(fault), Err(other)) => Err(first_of(fault_of(fault), other)),
    }
}

/// The errors of document types with the status.
fn read_outcome<'a>(map: &NamedMap<'a>) -> Result<(ResponseErrors<'a>, u64), ResponseFault>
    ensures { Gives (λ r. (errors_left r.0, r.1)) result (outcome (whole_map map.now)) }
{
    match (read_document_errors(map), map.uint(KeyName::Status)) {
        (Ok(errors), Ok(status)) => Ok((errors, status)),
        (Ok(_), Err(fault)) => Err(fault_of(fault)),
        (Err(fault), Ok(_)) => Err(fault),
        (Err(fault), Err(other)) => Err(first_of(fault, fault_of(other))),
    }
}

/// The version with the documents, and the errors of document types with the status.
pub(crate) fn read_both<'a>(
    map: &NamedMap<'a>,
) -> Result<((&'a str, ResponseDocs<'a>), (ResponseErrors<'a>, u64)), ResponseFault>
    ensures { Gives (λ r. ((r.0.0.now, documents_left r.0.1), (errors_left r.1.0, r.1.1))) result (both_read (whole_map map.now)) }
{
    match (read_versioned(map), read_outcome(map)) {
        (Ok(first), Ok(second)) => Ok((first, second)),
        (Ok(_), Err(fault)) => Err(fault),
        (Err(fault), Ok(_)) => Err(fault),
        (Err(fault), Err(other)) => Err(first_of(fault, other)),
    }
}

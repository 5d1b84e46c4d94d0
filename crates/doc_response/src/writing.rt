//! Writing of responses.

ghost use Rattle.std.specs.Prelude.{◌≡◌, ◌≤◌, ◌++◌, ◌==◌, length, map, filter, IfOk, OnOk, Some, if◌then◌else◌};
ghost use Rattle.cbor_view.specs.Shortest.{array_bytes};
ghost use Rattle.cbor_maps.specs.Writing.{map_head, named_map, put};
ghost use Rattle.mdoc_outside.specs.declared.key_name.KeyName.TheVariants.{DocumentErrors, Documents, Errors};
ghost use Rattle.doc_response.specs.Answered.{document_error, errors_map, if_any, is_empty};
ghost use Rattle.doc_response.specs.AnsweredView.{element_seen, text_seen};
ghost use Rattle.doc_response.specs.DraftView.{document_seen};
ghost use Rattle.doc_response.specs.Namespaces.{entries_of};
ghost use Rattle.doc_response.specs.Written.{auth_fields, device_signed, document_bytes, empty, full_fields, given, issuer_fields, not_given, refusal_fields, response_bytes, types_of};

use crate::draft_document::DraftDocument;
use crate::groups::{append_document_error, append_errors, append_items};
use crate::{DeviceAuth, MissingElement, ResponseDraft};
use cbor_maps::{MapBuild, append_key, append_map_head};
use cbor_write::{Build, count_of};
use cose_msgs::{write_mac0, write_sign1};
use mdoc_outside::{KeyName, Memory, Octets};
use std::alloc::Global;

/// The version that is written.
const VERSION: &str = "1.0";

/// The spelling of an empty map.
const EMPTY_MAP: [u8; 1] = [0xa0];

/// Status 0, OK (ISO/IEC 18013-5, 8.3.2.1.2.3, table 8).
const OK: u64 = 0;

/// How many entries a list takes that is written only where there is something in it.
fn entries_of(count: usize) -> u32
    ensures entries { result ≡ entries_of count }
    ensures few { result ≤ 1 }
{
    if count == 0 { 0 } else { 1 }
}

/// The device's authentication (DeviceAuth; 9.1.3.4), detached from its payload.
fn write_auth(alloc: Global, auth: DeviceAuth) -> Result<Octets, Memory>
    ensures { IfOk result (λ b. b ≡ named_map (auth_fields auth)) }
{
    match auth {
        DeviceAuth::Signature(signature) => {
            let message = write_sign1(alloc, None, None, &signature)?;
            let map = MapBuild::new(alloc, 1)?.spelled(
                KeyName::DeviceSignature,
                message.as_slice(),
            )?;
            Ok(map.finish())
        }
        DeviceAuth::Mac(tag) => {
            let message = write_mac0(alloc, &tag)?;
            let map = MapBuild::new(alloc, 1)?.spelled(KeyName::DeviceMac, message.as_slice())?;
            Ok(map.finish())
        }
    }
}

/// What the device signed (DeviceSigned; 8.3.2.1.2.2): no element, and its authentication.
#[tactic(auto, unfolding(crate::specs::Written::device_signed, cbor_maps::specs::Writing::map_head))]
fn write_device_signed(alloc: Global, auth: DeviceAuth) -> Result<Octets, Memory>
    ensures { IfOk result (λ b. b ≡ device_signed auth) }
{
    let auth = write_auth(alloc, auth)?;
    let map = MapBuild::new(alloc, 2)?
        .encoded(KeyName::NameSpaces, &EMPTY_MAP)?
        .spelled(KeyName::DeviceAuth, auth.as_slice())?;
    Ok(map.finish())
}

/// Appends what the issuer signed (IssuerSigned; 8.3.2.1.2.2).
fn append_issuer_signed(
    alloc: Global,
    build: &mut Build,
    document: &DraftDocument<'_>,
) -> Result<(), Memory>
    ensures { OnOk result (build.new ≡ build.old ++ named_map (issuer_fields (document_seen document.now))) }
{
    append_map_head(build, 2)?;
    append_key(build, KeyName::NameSpaces)?;
    append_items(alloc, build, document.answered.items())?;
    append_key(build, KeyName::IssuerAuth)?;
    build.append(document.issuer_auth)
}

/// Appends the errors of a document, where there are any.
fn append_missing(
    alloc: Global,
    build: &mut Build,
    missing: &[MissingElement<'_>],
) -> Result<(), Memory>
    ensures { OnOk result (build.new ≡ put build.old Errors (if_any (map element_seen missing.now) (errors_map (map element_seen missing.now)))) }
{
    if missing.is_empty() {
        return Ok(());
    }
    append_key(build, KeyName::Errors)?;
    append_errors(alloc, build, missing)
}

/// Appends a document (Document; 8.3.2.1.2.2).
fn append_document(
    alloc: Global,
    build: &mut Build,
    document: &DraftDocument<'_>,
) -> Result<(), Memory>
    ensures { OnOk result (build.new ≡ build.old ++ document_bytes (document_seen document.now)) }
{
    let missing = document.answered.missing_elements();
    append_map_head(build, 3 + entries_of(missing.len()))?;
    append_key(build, KeyName::DocType)?;
    build.text(document.answered.doc_type())?;
    append_key(build, KeyName::IssuerSigned)?;
    append_issuer_signed(alloc, build, document)?;
    let device_signed = write_device_signed(alloc, document.auth)?;
    append_key(build, KeyName::DeviceSigned)?;
    build.append(device_signed.as_slice())?;
    append_missing(alloc, build, missing)
}

/// Whether nothing of a document is released.
fn is_empty(document: &DraftDocument<'_>) -> bool
    ensures { result ≡ is_empty (document_seen document.now).answered }
{
    document.answered.items().is_empty()
}

/// How many documents there are of which something is released.
fn count_given(documents: &[DraftDocument<'_>]) -> usize
    ensures { result ≡ length (given (map document_seen documents.now)) }
{
    let mut count = 0;
    for document in documents {
        if !is_empty(document) {
            count += 1;
        }
    }
    count
}

/// Appends the documents of which something is released, where there are any.
fn append_documents(
    alloc: Global,
    build: &mut Build,
    documents: &[DraftDocument<'_>],
    count: u32,
) -> Result<(), Memory>
    requires { count ≡ length (given (map document_seen documents.now)) }
    ensures { OnOk result (build.new ≡ put build.old Documents (if_any (given (map document_seen documents.now)) (array_bytes (map document_bytes (given (map document_seen documents.now)))))) }
{
    if count == 0 {
        return Ok(());
    }
    append_key(build, KeyName::Documents)?;
    build.array(count)?;
    for document in documents {
        if !is_empty(document) {
            append_document(alloc, build, document)?;
        }
    }
    Ok(())
}

/// Appends the errors of document types, where there are any.
fn append_document_errors(build: &mut Build, types: &[&str]) -> Result<(), Memory>
    ensures { OnOk result (build.new ≡ put build.old DocumentErrors (if_any (map text_seen types.now) (array_bytes (map document_error (map text_seen types.now))))) }
{
    if types.is_empty() {
        return Ok(());
    }
    append_key(build, KeyName::DocumentErrors)?;
    build.array(count_of(types.len())?)?;
    for doc_type in types {
        append_document_error(build, doc_type)?;
    }
    Ok(())
}

/// The types of the documents of which nothing is released.
fn empty_types<'a>(alloc: Global, documents: &[DraftDocument<'a>]) -> Result<Vec<&'a str>, Memory>
    ensures { IfOk result (λ types. map text_seen types.items ≡ types_of (empty (map document_seen documents.now))) }
{
    let mut types = Vec::new(alloc);
    for document in documents {
        if is_empty(document) {
            types.push(document.answered.doc_type())?;
        }
    }
    Ok(types)
}

/// The types of all of which nothing is returned.
fn types_not_given<'a>(alloc: Global, parts: &ResponseDraft<'a>) -> Result<Vec<&'a str>, Memory>
    ensures { IfOk result (λ types. map text_seen types.items ≡ not_given parts.now) }
{
    let mut types = empty_types(alloc, parts.documents())?;
    types.extend_from_slice(parts.types_of_nothing())?;
    Ok(types)
}

/// A response of another status than OK: the version and the status.
fn write_refusal(alloc: Global, status: u64) -> Result<Octets, Memory>
    ensures { IfOk result (λ b. b ≡ named_map (refusal_fields status)) }
{
    let map = MapBuild::new(alloc, 2)?
        .text(KeyName::Version, VERSION)?
        .uint(KeyName::Status, status)?;
    Ok(map.finish())
}

/// A response of status OK.
fn write_full(alloc: Global, parts: &ResponseDraft<'_>) -> Result<Octets, Memory>
    ensures { IfOk result (λ b. b ≡ named_map (full_fields parts.now)) }
{
    let documents = count_of(count_given(parts.documents()))?;
    let types = types_not_given(alloc, parts)?;
    let mut build = Build::new(alloc);
    let lists = entries_of(documents as usize) + entries_of(types.len());
    append_map_head(&mut build, 2 + lists)?;
    append_key(&mut build, KeyName::Version)?;
    build.text(VERSION)?;
    append_documents(alloc, &mut build, parts.documents(), documents)?;
    append_document_errors(&mut build, &types)?;
    append_key(&mut build, KeyName::Status)?;
    build.uint(parts.status())?;
    Ok(build.finish())
}

/// The bytes of a response (DeviceResponse; ISO/IEC 18013-5, 8.3.2.1.2.2). A response of another status than 0 has
/// its version and status alone. A list of 2^32 entries or more has no spelling here, and is answered by want of memory.
#[tactic(auto, unfolding(crate::specs::Written::response_bytes))]
pub fn respond(alloc: Global, parts: &ResponseDraft<'_>) -> Result<Octets, Memory>
    ensures { IfOk result (λ b. b ≡ response_bytes parts.now) }
{
    if parts.status() != OK {
        return write_refusal(alloc, parts.status());
    }
    write_full(alloc, parts)
}

//! Writing of requests.

ghost use Rattle.std.specs.Prelude.{◌≡◌, ◌++◌, IfOk, OnOk, [], filter, flat_map, length, map, option_map, slice_get};
ghost use Rattle.std.specs.List.{AllByRecursion, list_any};
ghost use Rattle.cbor_view.specs.Shortest.{array_bytes};
ghost use Rattle.doc_request.specs.Draft.{AreWishes, IsDocument, IsName, IsRequest, IsWish};
ghost use Rattle.doc_request.specs.Written.{AreAuthentications, entry_bytes, document_map, document_maps, is_in, items_map, name_entry, openers, request_bytes, space_entry, spaces_bytes};

use crate::{DocDraft, RequestDraft, WishDraft};
use cbor_maps::MapBuild;
use cbor_write::{Build, count_of};
use mdoc_outside::{KeyName, Memory, Octets};
use std::alloc::Global;
use std::str;

/// The version that is written.
const VERSION: &str = "1.0";

/// The text of a name.
fn text_of(name: &Octets) -> &str
    requires { IsName name.now }
    ensures { result.now ≡ name.now }
{
    match str::from_utf8(name.as_slice()) {
        Ok(text) => text,
        Err(_) => unreachable!(),
    }
}

/// Whether one of the wishes is in that namespace.
fn has_space(wishes: &[WishDraft], ns: &str) -> bool
    ensures { result ≡ list_any (is_in ns.now) wishes.now }
{
    for wish in wishes {
        if wish.ns.as_slice() == ns.as_bytes() {
            return true;
        }
    }
    false
}

/// How many of the wishes are in that namespace.
fn count_names(wishes: &[WishDraft], ns: &str) -> usize
    ensures { result ≡ length (filter (is_in ns.now) wishes.now) }
{
    let mut count = 0;
    for wish in wishes {
        if wish.ns.as_slice() == ns.as_bytes() {
            count += 1;
        }
    }
    count
}

/// How many namespaces there are.
fn count_spaces(wishes: &[WishDraft]) -> usize
    requires { AllByRecursion IsWish wishes.now }
    ensures { result ≡ length (openers [] wishes.now) }
{
    let mut count = 0;
    for (place, wish) in wishes.iter().enumerate() {
        if !has_space(&wishes[..place], text_of(&wish.ns)) {
            count += 1;
        }
    }
    count
}

/// Appends a name, with whether the reader means to retain the element.
fn put_name(build: &mut Build, wish: &WishDraft) -> Result<(), Memory>
    requires { IsWish wish.now }
    ensures { OnOk result (build.new ≡ build.old ++ entry_bytes (name_entry wish.now)) }
{
    build.text(text_of(&wish.name))?;
    build.boolean(wish.retain)
}

/// Appends the names of a namespace, in their order.
fn put_names(build: &mut Build, wishes: &[WishDraft], ns: &str) -> Result<(), Memory>
    requires { AllByRecursion IsWish wishes.now }
    ensures { OnOk result (build.new ≡ build.old ++ flat_map entry_bytes (map name_entry (filter (is_in ns.now) wishes.now))) }
{
    for wish in wishes {
        if wish.ns.as_slice() == ns.as_bytes() {
            put_name(build, wish)?;
        }
    }
    Ok(())
}

/// Appends a namespace with its names.
fn put_space(build: &mut Build, wishes: &[WishDraft], ns: &str) -> Result<(), Memory>
    requires { AllByRecursion IsWish wishes.now }
    ensures { OnOk result (build.new ≡ build.old ++ entry_bytes (space_entry wishes.now ns.now)) }
{
    build.text(ns)?;
    build.map(count_of(count_names(wishes, ns))?)?;
    put_names(build, wishes, ns)?;
    Ok(())
}

/// The map of namespaces, each at its first appearance.
#[tactic(auto, unfolding(crate::specs::Written::spaces_bytes))]
fn write_spaces(alloc: Global, wishes: &[WishDraft]) -> Result<Octets, Memory>
    requires { AllByRecursion IsWish wishes.now }
    ensures { IfOk result (λ b. b ≡ spaces_bytes wishes.now) }
{
    let mut build = Build::new(alloc);
    build.map(count_of(count_spaces(wishes))?)?;
    for (place, wish) in wishes.iter().enumerate() {
        let ns = text_of(&wish.ns);
        if !has_space(&wishes[..place], ns) {
            put_space(&mut build, wishes, ns)?;
        }
    }
    Ok(build.finish())
}

/// The map ItemsRequest of a document.
#[tactic(auto, unfolding(crate::specs::Written::items_map))]
fn write_items(alloc: Global, document: &DocDraft) -> Result<Octets, Memory>
    requires { IsDocument document.now }
    ensures { IfOk result (λ b. b ≡ items_map document.now) }
{
    let spaces = write_spaces(alloc, document.wishes.as_slice())?;
    let map = MapBuild::new(alloc, 2)?
        .text(KeyName::DocType, text_of(&document.doc_type))?
        .spelled(KeyName::NameSpaces, spaces.as_slice())?;
    Ok(map.finish())
}

/// The map DocRequest of a document, with the reader's authentication, where there is one.
#[tactic(auto, unfolding(crate::specs::Written::document_map))]
fn write_document(alloc: Global, document: &DocDraft, auth: Option<&[u8]>) -> Result<Octets, Memory>
    requires { IsDocument document.now }
    ensures { IfOk result (λ b. b ≡ document_map document.now (option_map (λ a. a.now) auth.entry)) }
{
    let items = write_items(alloc, document)?;
    let map = MapBuild::new(alloc, 1 + u32::from(auth.is_some()))?
        .encoded(KeyName::ItemsRequest, items.as_slice())?
        .optional_spelled(KeyName::ReaderAuth, auth)?;
    Ok(map.finish())
}

/// The authentication at a place, where there is one.
fn auth_at(auths: &[Octets], place: usize) -> Option<&[u8]>
    ensures { option_map (λ a. a.now) result ≡ slice_get auths.now place }
{
    match auths.get(place) {
        Some(auth) => Some(auth.as_slice()),
        None => None,
    }
}

/// The array of the documents.
#[tactic(auto, using(crate::proofs::Writing::maps_length))]
fn write_documents(
    alloc: Global,
    documents: &[DocDraft],
    auths: &[Octets],
) -> Result<Octets, Memory>
    requires { AllByRecursion IsDocument documents.now }
    ensures { IfOk result (λ b. b ≡ array_bytes (document_maps 0 documents.now auths.now)) }
{
    let mut build = Build::new(alloc);
    build.array(count_of(documents.len())?)?;
    for (place, document) in documents.iter().enumerate() {
        let map = write_document(alloc, document, auth_at(auths, place))?;
        build.append(map.as_slice())?;
    }
    Ok(build.finish())
}

/// The bytes of a request (DeviceRequest; ISO/IEC 18013-5, 8.3.2.1.2.1), with the readers' authentications, of which there
/// are none or one for each document (9.1.4). A namespace is at its first appearance, and names are in their order. A
/// string of 2^32 bytes or more has no spelling here, and is answered by want of memory.
#[tactic(auto, unfolding(crate::specs::Written::request_bytes))]
pub fn write_request(alloc: Global, asks: &RequestDraft, auths: &[Octets]) -> Result<Octets, Memory>
    requires request { IsRequest asks.now.documents }
    requires auths { AreAuthentications asks.now.documents auths.now }
    ensures { IfOk result (λ b. b ≡ request_bytes asks.now.documents auths.now) }
{
    let documents = write_documents(alloc, asks.documents.as_slice(), auths)?;
    let map = MapBuild::new(alloc, 2)?
        .text(KeyName::Version, VERSION)?
        .spelled(KeyName::DocRequests, documents.as_slice())?;
    Ok(map.finish())
}

//! Items and errors by their namespaces, as bytes of CBOR.

ghost use Rattle.std.specs.Prelude.{◌≡◌, ◌++◌, length, map, OnOk};
ghost use Rattle.cbor_view.specs.Shortest.{text_bytes};
ghost use Rattle.doc_response.specs.Answered.{document_error, errors_entry, errors_map, items_map, namespace_entry, of_namespace};
ghost use Rattle.doc_response.specs.AnsweredView.{element_seen, item_seen};
ghost use Rattle.doc_response.specs.Namespaces.{count_of_text, entry_bytes, texts};

use crate::namespaces::distinct_texts;
use crate::{MissingElement, ReleasedItem};
use cbor_write::{Build, count_of};
use mdoc_outside::Memory;
use std::alloc::Global;

/// How many of the texts are this one.
fn count_text(list: &[&str], text: &str) -> usize
    ensures { result ≡ count_of_text text.now (texts list.now) }
{
    let mut count = 0;
    for other in list {
        if *other == text {
            count += 1;
        }
    }
    count
}

/// Appends a namespace with its items, as they are stored.
fn append_namespace(
    build: &mut Build,
    items: &[ReleasedItem<'_>],
    ns: &str,
    count: u32,
) -> Result<(), Memory>
    requires { count ≡ length (of_namespace (map item_seen items.now) ns.now).1 }
    ensures { OnOk result (build.new ≡ build.old ++ entry_bytes (namespace_entry (of_namespace (map item_seen items.now) ns.now))) }
{
    build.text(ns)?;
    build.array(count)?;
    for item in items {
        if item.ns == ns {
            build.append(item.raw)?;
        }
    }
    Ok(())
}

/// Appends a namespace with the names of its elements that aren't returned, each with error code 0.
fn append_namespace_errors(
    build: &mut Build,
    missing: &[MissingElement<'_>],
    ns: &str,
    count: u32,
) -> Result<(), Memory>
    requires { count ≡ length (of_namespace (map element_seen missing.now) ns.now).1 }
    ensures { OnOk result (build.new ≡ build.old ++ entry_bytes (errors_entry (of_namespace (map element_seen missing.now) ns.now))) }
{
    build.text(ns)?;
    build.map(count)?;
    for element in missing {
        if element.ns == ns {
            build.text(element.name)?;
            build.uint(0)?;
        }
    }
    Ok(())
}

/// Appends the map of namespaces to their items (ISO/IEC 18013-5, 8.3.2.1.2.2), in the order in which they
/// appear first.
#[tactic(auto, unfolding(crate::specs::Answered::items_map))]
pub fn append_items(
    alloc: Global,
    build: &mut Build,
    items: &[ReleasedItem<'_>],
) -> Result<(), Memory>
    ensures { OnOk result (build.new ≡ build.old ++ items_map (map item_seen items.now)) }
{
    let mut all = Vec::new(alloc);
    for item in items {
        all.push(item.ns)?;
    }
    let namespaces = distinct_texts(alloc, &all)?;
    build.map(count_of(namespaces.len())?)?;
    for ns in &namespaces {
        append_namespace(build, items, ns, count_of(count_text(&all, ns))?)?;
    }
    Ok(())
}

/// Appends the map of namespaces to their errors (8.3.2.1.2.2), in the order in which they appear first.
#[tactic(auto, unfolding(crate::specs::Answered::errors_map))]
pub fn append_errors(
    alloc: Global,
    build: &mut Build,
    missing: &[MissingElement<'_>],
) -> Result<(), Memory>
    ensures { OnOk result (build.new ≡ build.old ++ errors_map (map element_seen missing.now)) }
{
    let mut all = Vec::new(alloc);
    for element in missing {
        all.push(element.ns)?;
    }
    let namespaces = distinct_texts(alloc, &all)?;
    build.map(count_of(namespaces.len())?)?;
    for ns in &namespaces {
        append_namespace_errors(build, missing, ns, count_of(count_text(&all, ns))?)?;
    }
    Ok(())
}

/// Appends the error of a document type of which nothing is returned, with code 0.
#[tactic(auto, unfolding(crate::specs::Answered::document_error))]
pub fn append_document_error(build: &mut Build, doc_type: &str) -> Result<(), Memory>
    ensures { OnOk result (build.new ≡ build.old ++ document_error doc_type.now) }
{
    build.map(1)?;
    build.text(doc_type)?;
    build.uint(0)
}

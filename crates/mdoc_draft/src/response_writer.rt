// The core of a response, as bytes of CBOR.
ghost use Rattle.std.specs.Prelude.{◌≡◌, ◌≤◌, ◌==◌, ◌++◌, length, flat_map, IfOk, OnOk, if◌then◌else◌};
ghost use Rattle.cbor_view.specs.Shortest.{shortest_head};
ghost use Rattle.doc_response.specs.Answered.{is_empty};
ghost use Rattle.doc_response.specs.Namespaces.{entry_bytes};
ghost use Rattle.mdoc_draft.specs.Core.{core_bytes, document_bytes};
ghost use Rattle.mdoc_draft.specs.Entry.{document_errors_entry, documents_entry, given_entries, given_of, refused_of};

use cbor_write::{Build, count_of};
use doc_response::{AnsweredDocument, append_document_error, append_errors, append_items};
use mdoc_outside::{Memory, Octets};
use std::alloc::Global;

// Appends the head of a document's map with so many entries, its type and its released items.
fn put_given(
    alloc: Global,
    build: &mut Build,
    document: &AnsweredDocument<'_>,
    entries: u32,
) -> Result<(), Memory>
    ensures { OnOk result (build.new ≡ build.old ++ (shortest_head 5 entries ++ flat_map entry_bytes (given_entries document.now))) }
{
    build.map(entries)?;
    build.text("docType")?;
    build.text(document.doc_type())?;
    build.text("nameSpaces")?;
    append_items(alloc, build, document.items())?;
    Ok(())
}

// Appends a document of which something is released.
fn put_document(
    alloc: Global,
    build: &mut Build,
    document: &AnsweredDocument<'_>,
) -> Result<(), Memory>
    ensures { OnOk result (build.new ≡ build.old ++ document_bytes document.now) }
{
    if document.missing_elements().is_empty() {
        put_given(alloc, build, document, 2)?;
        return Ok(());
    }
    put_given(alloc, build, document, 3)?;
    build.text("errors")?;
    append_errors(alloc, build, document.missing_elements())?;
    Ok(())
}

// Whether nothing of a document is released.
fn is_empty(document: &AnsweredDocument<'_>) -> bool
    ensures { result ≡ is_empty document.now }
{
    document.items().is_empty()
}

// How many documents there are of which something is released.
fn count_given(documents: &[AnsweredDocument<'_>]) -> usize
    ensures { result ≡ length (given_of documents.now) }
{
    let mut count = 0;
    for document in documents {
        if !is_empty(document) {
            count += 1;
        }
    }
    count
}

// How many there are of which nothing is.
fn count_refused(documents: &[AnsweredDocument<'_>]) -> usize
    ensures { result ≡ length (refused_of documents.now) }
{
    let mut count = 0;
    for document in documents {
        if is_empty(document) {
            count += 1;
        }
    }
    count
}

// Appends the entry of the documents of which something is released, where there are any.
fn put_documents(
    alloc: Global,
    build: &mut Build,
    documents: &[AnsweredDocument<'_>],
    count: u32,
) -> Result<(), Memory>
    requires { count ≡ length (given_of documents.now) }
    ensures { OnOk result (build.new ≡ build.old ++ flat_map entry_bytes (documents_entry documents.now)) }
{
    if count == 0 {
        return Ok(());
    }
    build.text("documents")?;
    build.array(count)?;
    for document in documents {
        if !is_empty(document) {
            put_document(alloc, build, document)?;
        }
    }
    Ok(())
}

// Appends the entry of the errors of the others, where there are any.
fn put_document_errors(
    build: &mut Build,
    documents: &[AnsweredDocument<'_>],
    count: u32,
) -> Result<(), Memory>
    requires { count ≡ length (refused_of documents.now) }
    ensures { OnOk result (build.new ≡ build.old ++ flat_map entry_bytes (document_errors_entry documents.now)) }
{
    if count == 0 {
        return Ok(());
    }
    build.text("documentErrors")?;
    build.array(count)?;
    for document in documents {
        if is_empty(document) {
            append_document_error(build, document.doc_type())?;
        }
    }
    Ok(())
}

// How many entries a list takes that stands only where there is something in it.
fn entries_of(count: u32) -> u32
    ensures entries { result ≡ if count == 0 then 0 else 1 }
    ensures few { result ≤ 1 }
{
    if count == 0 { 0 } else { 1 }
}

// The core of what documents are answered with.
pub(crate) fn write_core(
    alloc: Global,
    documents: &[AnsweredDocument<'_>],
) -> Result<Octets, Memory>
    ensures { IfOk result (λ core. core ≡ core_bytes documents.now) }
{
    let given = count_of(count_given(documents))?;
    let refused = count_of(count_refused(documents))?;
    let mut build = Build::new(alloc);
    build.map(entries_of(given) + entries_of(refused))?;
    put_documents(alloc, &mut build, documents, given)?;
    put_document_errors(&mut build, documents, refused)?;
    Ok(build.finish())
}

//! The documents of a merged store.

ghost use Rattle.std.specs.Prelude.{◌≡◌, ◌++◌, ◌∷◌, [], IfOk, OnOk, filter, map};
ghost use Rattle.doc_store.specs.Document.{document_of};
ghost use Rattle.doc_store.specs.StoreView.{documents_in};
ghost use Rattle.store_write.specs.Merged.{is_new, merged, newest};

use doc_store::{Document, Store};
use mdoc_outside::Memory;
use std::alloc::Global;

/// The package's document of a type, or else the store's own.
fn newest<'a>(received: &Store<'a>, own: Document<'a>) -> Document<'a>
    ensures { document_of result ≡ newest (documents_in received.now) (document_of own.entry) }
{
    match received.find(own.doc_type()) {
        Some(document) => document,
        None => own,
    }
}

/// Whether a store has no document of the type.
fn is_new(own: &Store<'_>, document: &Document<'_>) -> bool
    ensures { result ≡ is_new (documents_in own.now) (document_of document.now) }
{
    own.find(document.doc_type()).is_none()
}

/// Adds a document.
fn add<'a>(documents: &mut Vec<Document<'a>>, document: Document<'a>) -> Result<(), Memory>
    ensures { OnOk result (map document_of documents.new.items ≡ map document_of documents.old.items ++ document_of document.entry ∷ []) }
{
    documents.push(document)?;
    Ok(())
}

/// Adds the store's documents, or those of the package that take their places.
fn add_own<'a>(
    documents: &mut Vec<Document<'a>>,
    own: &Store<'a>,
    received: &Store<'a>,
) -> Result<(), Memory>
    ensures { OnOk result (map document_of documents.new.items ≡ map document_of documents.old.items ++ map (newest (documents_in received.now)) (documents_in own.now)) }
{
    for place in 0..own.documents() {
        add(documents, newest(received, own.document(place)))?;
    }
    Ok(())
}

/// Adds a document of the package, where its type is new.
fn add_if_new<'a>(
    documents: &mut Vec<Document<'a>>,
    own: &Store<'a>,
    document: Document<'a>,
) -> Result<(), Memory>
    ensures { OnOk result (map document_of documents.new.items ≡ map document_of documents.old.items ++ filter (is_new (documents_in own.now)) (document_of document.entry ∷ [])) }
{
    if is_new(own, &document) {
        return add(documents, document);
    }
    Ok(())
}

/// Adds the documents of the package whose types are new.
fn add_new<'a>(
    documents: &mut Vec<Document<'a>>,
    own: &Store<'a>,
    received: &Store<'a>,
) -> Result<(), Memory>
    ensures { OnOk result (map document_of documents.new.items ≡ map document_of documents.old.items ++ filter (is_new (documents_in own.now)) (documents_in received.now)) }
{
    for place in 0..received.documents() {
        add_if_new(documents, own, received.document(place))?;
    }
    Ok(())
}

/// The documents of the merged store.
#[tactic(auto, unfolding(crate::specs::Merged::merged))]
pub(crate) fn merged_documents<'a>(
    alloc: Global,
    own: &Store<'a>,
    received: &Store<'a>,
) -> Result<Vec<Document<'a>>, Memory>
    ensures { IfOk result (λ all. map document_of all.items ≡ merged (documents_in own.now) (documents_in received.now)) }
{
    let mut documents = Vec::new(alloc);
    add_own(&mut documents, own, received)?;
    add_new(&mut documents, own, received)?;
    Ok(documents)
}

//! The elements that the device signed.

ghost use Rattle.std.specs.Prelude.{◌≡◌, ◌++◌, IfOk, OnOk, filter_map, option_map};
ghost use Rattle.std.specs.List.{flat_map};
ghost use Rattle.cbor_view.specs.Label.{entries_or_none};
ghost use Rattle.cbor_view.specs.Pairs.{pairs_left};
ghost use Rattle.cbor_view.specs.Parts.{pairs_in, text_in};
ghost use Rattle.cbor_view.specs.View.{part};
ghost use Rattle.doc_response.specs.ResponseDocs.{document_seen};
ghost use Rattle.verdict_model.specs.Documents.{device_elements, named, named_under};

use cbor_view::{Pairs, View};
use doc_response::ResponseDoc;
use mdoc_outside::{Memory, Octets, Rows};
use std::alloc::Global;
use verdict_model::Named;

/// The names of an element.
fn named(alloc: Global, doc_type: &str, ns: &str, name: &str) -> Result<Named, Memory>
    ensures { IfOk result (λ element. element ≡ record { doc_type = doc_type.now; ns = ns.now; name = name.now }) }
{
    let doc_type = Octets::copy_of(alloc, doc_type.as_bytes())?;
    let ns = Octets::copy_of(alloc, ns.as_bytes())?;
    let name = Octets::copy_of(alloc, name.as_bytes())?;
    Ok(Named { doc_type, ns, name })
}

/// Appends the elements of a namespace.
fn put_names(
    alloc: Global,
    doc_type: &str,
    ns: &str,
    names: Pairs<'_>,
    elements: &mut Vec<Named>,
) -> Result<(), Memory>
    ensures { OnOk result (elements.new.items ≡ elements.old.items ++ filter_map (named doc_type.now ns.now) (pairs_left names.entry)) }
{
    for (key, _) in names {
        if let Some(name) = key.text() {
            let element = named(alloc, doc_type, ns, name)?;
            elements.push(element)?;
        }
    }
    Ok(())
}

/// Appends the elements of what is under a key.
fn put_under(
    alloc: Global,
    doc_type: &str,
    key: View<'_>,
    value: View<'_>,
    elements: &mut Vec<Named>,
) -> Result<(), Memory>
    ensures { OnOk result (elements.new.items ≡ elements.old.items ++ named_under doc_type.now (text_in (part key.entry)) (part value.entry)) }
{
    match (key.text(), value.pairs()) {
        (Some(ns), Some(names)) => put_names(alloc, doc_type, ns, names, elements),
        _ => Ok(()),
    }
}

/// Appends the elements of all namespaces.
fn put_namespaces(
    alloc: Global,
    doc_type: &str,
    namespaces: Pairs<'_>,
    elements: &mut Vec<Named>,
) -> Result<(), Memory>
    ensures { OnOk result (elements.new.items ≡ elements.old.items ++ flat_map (λ entry. named_under doc_type.now (text_in entry.0) entry.1) (pairs_left namespaces.entry)) }
{
    for (key, value) in namespaces {
        put_under(alloc, doc_type, key, value, elements)?;
    }
    Ok(())
}

/// The elements that the device signed, in order (ISO/IEC 18013-5, 8.3.2.1.2.2): those with a text for a namespace and
/// a text for a name.
pub fn device_elements(alloc: Global, document: &ResponseDoc<'_>) -> Result<Rows<Named>, Memory>
    ensures { IfOk result (λ elements. elements ≡ device_elements (document_seen document.now)) }
{
    let mut elements = Vec::new(alloc);
    if let Ok(map) = View::read(document.device_namespaces()) {
        if let Some(namespaces) = map.pairs() {
            put_namespaces(alloc, document.doc_type(), namespaces, &mut elements)?;
        }
    }
    Ok(Rows::from_vec(elements))
}

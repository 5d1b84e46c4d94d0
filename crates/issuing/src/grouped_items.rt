//! The items of a copy by their namespaces, each written from its element and its salt.

ghost use Rattle.std.specs.Prelude.{◌≡◌, ◌<◌, ◌+◌, ◌^◌, ◌++◌, length, IfOk, IsTrue, OnOk};
ghost use Rattle.doc_response.specs.Answered.{items_map, namespace_entry, of_namespace};
ghost use Rattle.doc_response.specs.Namespaces.{entry_bytes};
ghost use Rattle.issue_spec.specs.SpecFacts.{AreElements, is_element};
ghost use Rattle.issuing.specs.IssuedItems.{items_of, raw_items};
ghost use Rattle.issuing.specs.Groups.{element_bytes, namespace_bytes, next_number};

use crate::items::{count_in_namespace, write_element};
use crate::namespaces::namespaces;
use cbor_write::{Build, count_of};
use issue_spec::SpecElement;
use mdoc_outside::Memory;
use std::alloc::Global;

/// Appends the item of an element with that digest identifier, where it is of the namespace, and answers the digest
/// identifier of the next one.
fn put_element(
    alloc: Global,
    build: &mut Build,
    ns: &[u8],
    number: u64,
    element: &SpecElement,
    salt: &[u8; 32],
) -> Result<u64, Memory>
    requires element { IsTrue (is_element element.now) }
    requires number { number + 1 < 2 ^ 64 }
    ensures written { OnOk result (build.new ≡ build.old ++ element_bytes ns.now number element.now salt.now) }
    ensures next { IfOk result (λ n. n ≡ next_number ns.now number element.now) }
{
    if element.ns.as_slice() != ns {
        return Ok(number);
    }
    let item = write_element(alloc, number, element, salt)?;
    build.append(item.as_slice())?;
    Ok(number + 1)
}

/// Appends the items of a namespace.
fn put_elements(
    alloc: Global,
    build: &mut Build,
    ns: &[u8],
    elements: &[SpecElement],
    salts: &[[u8; 32]],
) -> Result<(), Memory>
    requires elements { AreElements elements.now }
    requires salts { length salts.now ≡ length elements.now }
    ensures { OnOk result (build.new ≡ build.old ++ namespace_bytes ns.now (items_of elements.now salts.now)) }
{
    let mut number = 0;
    for (place, element) in elements.iter().enumerate() {
        number = put_element(alloc, build, ns, number, element, &salts[place])?;
    }
    Ok(())
}

/// Appends a namespace with its items.
fn put_namespace(
    alloc: Global,
    build: &mut Build,
    ns: &str,
    elements: &[SpecElement],
    salts: &[[u8; 32]],
) -> Result<(), Memory>
    requires elements { AreElements elements.now }
    requires salts { length salts.now ≡ length elements.now }
    ensures { OnOk result (build.new ≡ build.old ++ entry_bytes (namespace_entry (of_namespace (raw_items (items_of elements.now salts.now)) ns.now))) }
{
    let name = ns.as_bytes();
    build.text(ns)?;
    build.array(count_of(count_in_namespace(name, elements))?)?;
    put_elements(alloc, build, name, elements, salts)
}

/// Appends the map of namespaces to the items of a spec's elements, each with its salt (ISO/IEC 18013-5,
/// 8.3.2.1.2.2). No item is held once it is appended.
pub(crate) fn put_grouped_items(
    alloc: Global,
    build: &mut Build,
    elements: &[SpecElement],
    salts: &[[u8; 32]],
) -> Result<(), Memory>
    requires elements { AreElements elements.now }
    requires salts { length salts.now ≡ length elements.now }
    ensures { OnOk result (build.new ≡ build.old ++ items_map (raw_items (items_of elements.now salts.now))) }
{
    let spaces = namespaces(alloc, elements)?;
    build.map(count_of(spaces.len())?)?;
    for ns in &spaces {
        put_namespace(alloc, build, ns, elements, salts)?;
    }
    Ok(())
}

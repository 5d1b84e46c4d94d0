//! The namespaces of a spec's elements.

ghost use Rattle.std.specs.Prelude.{◌≡◌, map, IfOk, IsTrue};
ghost use Rattle.doc_response.specs.Answered.{distinct_texts};
ghost use Rattle.doc_response.specs.Namespaces.{texts};
ghost use Rattle.issue_spec.specs.SpecFacts.{AreElements, is_element};
ghost use Rattle.issuing.specs.Groups.{ns_of};

use doc_response::distinct_texts;
use issue_spec::SpecElement;
use mdoc_outside::Memory;
use std::alloc::Global;

/// The namespace of an element, as text.
#[tactic(auto, using(crate::proofs::ElementLemmas::ns_text))]
fn namespace_of(element: &SpecElement) -> &str
    requires { IsTrue (is_element element.now) }
    ensures { result.now ≡ ns_of element.now }
{
    match str::from_utf8(element.ns.as_slice()) {
        Ok(ns) => ns,
        Err(_) => unreachable!(),
    }
}

/// The namespaces of elements, each at its first place.
pub(crate) fn namespaces<'a>(
    alloc: Global,
    elements: &'a [SpecElement],
) -> Result<Vec<&'a str>, Memory>
    requires { AreElements elements.now }
    ensures { IfOk result (λ found. texts found.items ≡ distinct_texts (map ns_of elements.now)) }
{
    let mut all = Vec::new(alloc);
    for element in elements {
        all.push(namespace_of(element))?;
    }
    distinct_texts(alloc, &all)
}

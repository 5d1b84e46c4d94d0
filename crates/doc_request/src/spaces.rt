//! The checks of the namespaces of an items request.

ghost use Rattle.std.specs.Prelude.{◌≡◌, ◌≤◌, length};
ghost use Rattle.std.specs.List.{AllByRecursion, list_all};
ghost use Rattle.cbor_view.specs.Pairs.{pairs_left};
ghost use Rattle.cbor_view.specs.View.{part};
ghost use Rattle.doc_request.specs.Spaces.{are_distinct, entries, has_distinct_names, is_count, is_element, is_empty, is_space, spaces_fault};
ghost use Rattle.doc_request.specs.Texts.{HasFewNames};
ghost use Rattle.doc_request.specs.Views.{elements_left};

use crate::RequestFault;
use crate::elements::Elements;
use crate::texts::are_distinct;
use cbor_view::{Pairs, View};
use mdoc_outside::{KeyName, MOST_WISHES_OF_DOCUMENT};

/// What is wrong with the namespaces of an items request.
#[tactic(auto, using(crate::proofs::FewNames::few_spaces, crate::proofs::FewNames::few_names))]
pub(crate) fn spaces_fault(spaces: Pairs<'_>) -> Option<RequestFault>
    ensures { result ≡ spaces_fault (pairs_left spaces.entry) }
{
    if !are_spaces(spaces) {
        return Some(RequestFault::Field(KeyName::NameSpaces));
    }
    let ns = "";
    let names = None;
    if !is_count(Elements { ns, names, spaces }) {
        return Some(RequestFault::Count);
    }
    if are_distinct(spaces) && have_distinct_names(spaces) {
        None
    } else {
        Some(RequestFault::Doubled)
    }
}

/// Whether each namespace has its form.
fn are_spaces(spaces: Pairs<'_>) -> bool
    ensures { result ≡ list_all is_space (pairs_left spaces.entry) }
{
    for (name, map) in spaces {
        if !is_space(&name, &map) {
            return false;
        }
    }
    true
}

/// Whether a namespace has its form: a text, and a map with an entry, each a text with a truth value.
fn is_space(name: &View<'_>, map: &View<'_>) -> bool
    ensures { result ≡ is_space (part name.now, part map.now) }
{
    match (name.text(), map.pairs()) {
        (Some(_), Some(names)) => !is_empty(names) && are_elements(names),
        _ => false,
    }
}

/// Whether there is no entry.
fn is_empty(mut entries: Pairs<'_>) -> bool
    ensures { result ≡ is_empty (pairs_left entries.entry) }
{
    entries.next().is_none()
}

/// Whether each entry is a text with a truth value.
fn are_elements(names: Pairs<'_>) -> bool
    ensures { result ≡ list_all is_element (pairs_left names.entry) }
{
    for (name, retain) in names {
        if name.text().is_none() || retain.boolean().is_none() {
            return false;
        }
    }
    true
}

/// Whether the elements are 1 to 512.
fn is_count(elements: Elements<'_>) -> bool
    ensures { result ≡ is_count 512 (elements_left elements.entry) }
{
    let mut count = 0;
    for _element in elements {
        if count == MOST_WISHES_OF_DOCUMENT {
            return false;
        }
        count += 1;
    }
    count > 0
}

/// Whether the names within each namespace are distinct.
fn have_distinct_names(spaces: Pairs<'_>) -> bool
    requires { AllByRecursion HasFewNames (pairs_left spaces) }
    ensures { result ≡ list_all has_distinct_names (pairs_left spaces.entry) }
{
    for (_, map) in spaces {
        if !has_distinct_names(&map) {
            return false;
        }
    }
    true
}

/// Whether the names of a namespace are distinct.
fn has_distinct_names(map: &View<'_>) -> bool
    requires { length (entries (part map.now)) ≤ 512 }
    ensures { result ≡ are_distinct (entries (part map.now)) }
{
    match map.pairs() {
        Some(names) => are_distinct(names),
        None => true,
    }
}

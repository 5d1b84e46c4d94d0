//! The parts of a response whose keys are given by what is answered.

ghost use Rattle.std.specs.Prelude.{◌≡◌, is_some, option_map};
ghost use Rattle.cbor_view.specs.Items.{left};
ghost use Rattle.cbor_view.specs.Pairs.{pairs_left};
ghost use Rattle.cbor_view.specs.View.{part};
ghost use Rattle.mdoc_outside.specs.OptionSteps.{each};
ghost use Rattle.doc_response.specs.ResponseParts.{are_element_errors, error_of, errors_in, if_map, namespace, namespace_errors};
ghost use Rattle.cbor_view.specs.Parts.{cbor};

use cbor_view::{Items, Pairs, View};

/// Whether a pair of a map is a namespace with its items.
fn is_namespace(name: View<'_>, list: View<'_>) -> bool
    ensures { result ≡ is_some (namespace (part name.entry, part list.entry)) }
{
    match (name.text(), list.items()) {
        (Some(_), Some(_)) => true,
        (Some(_), None) => false,
        (None, Some(_)) => false,
        (None, None) => false,
    }
}

/// Whether pairs of a map are namespaces with their items.
#[tactic(auto, using(crate::proofs::Each::each_more, crate::proofs::Each::each_stopped))]
pub(crate) fn are_namespaces(pairs: Pairs<'_>) -> bool
    ensures { result ≡ is_some (each namespace (pairs_left pairs.entry)) }
{
    for (name, list) in pairs {
        if !is_namespace(name, list) {
            return false;
        }
    }
    true
}

/// Whether a pair of a map is an error: a text and a code, which is an integer.
fn is_error(name: View<'_>, code: View<'_>) -> bool
    ensures { result ≡ is_some (error_of (part name.entry, part code.entry)) }
{
    match (name.text(), code.int()) {
        (Some(_), Some(_)) => true,
        (Some(_), None) => false,
        (None, Some(_)) => false,
        (None, None) => false,
    }
}

/// Whether pairs of a map are errors.
#[tactic(auto, using(crate::proofs::Each::each_more, crate::proofs::Each::each_stopped))]
fn are_errors(pairs: Pairs<'_>) -> bool
    ensures { result ≡ is_some (each error_of (pairs_left pairs.entry)) }
{
    for (name, code) in pairs {
        if !is_error(name, code) {
            return false;
        }
    }
    true
}

/// Whether an item is a map of errors.
fn is_error_map(value: View<'_>) -> bool
    ensures { result ≡ is_some (errors_in (part value.entry)) }
{
    match value.pairs() {
        Some(pairs) => are_errors(pairs),
        None => false,
    }
}

/// Whether items are maps of errors.
#[tactic(auto, using(crate::proofs::Each::each_more, crate::proofs::Each::each_stopped))]
pub(crate) fn are_error_maps(maps: Items<'_>) -> bool
    ensures { result ≡ is_some (each errors_in (left maps.entry)) }
{
    for map in maps {
        if !is_error_map(map) {
            return false;
        }
    }
    true
}

/// Whether a pair of a map is a namespace with the errors of its elements.
fn is_namespace_errors(name: View<'_>, errors: View<'_>) -> bool
    ensures { result ≡ is_some (namespace_errors (part name.entry, part errors.entry)) }
{
    if is_error_map(errors) {
        name.text().is_some()
    } else {
        false
    }
}

/// Whether pairs of a map are namespaces with the errors of their elements.
#[tactic(auto, using(crate::proofs::Each::each_more, crate::proofs::Each::each_stopped))]
fn are_namespace_errors(pairs: Pairs<'_>) -> bool
    ensures { result ≡ is_some (each namespace_errors (pairs_left pairs.entry)) }
{
    for (name, errors) in pairs {
        if !is_namespace_errors(name, errors) {
            return false;
        }
    }
    true
}

/// Whether an item is a map of namespaces with the errors of their elements.
pub(crate) fn are_element_errors(value: View<'_>) -> bool
    ensures { result ≡ are_element_errors (part value.entry) }
{
    match value.pairs() {
        Some(pairs) => are_namespace_errors(pairs),
        None => false,
    }
}

/// The bytes, where they spell one map.
pub(crate) fn if_map(bytes: &[u8]) -> Option<&[u8]>
    ensures { option_map (λ b. b.now) result ≡ if_map bytes.now (cbor bytes.now) }
{
    match View::read(bytes) {
        Ok(item) => match item.pairs() {
            Some(_) => Some(bytes),
            None => None,
        },
        Err(_) => None,
    }
}

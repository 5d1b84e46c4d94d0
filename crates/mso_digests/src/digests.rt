//! The digests of a security object.

ghost use Rattle.std.specs.Prelude.{◌≡◌, option_map};
ghost use Rattle.std.specs.List.{list_all};
ghost use Rattle.mdoc_outside.specs.Borrowed.{content};
ghost use Rattle.cbor_view.specs.Pairs.{pairs_left};
ghost use Rattle.cbor_view.specs.Parts.{pairs_in, text_in};
ghost use Rattle.cbor_view.specs.View.{part};
ghost use Rattle.mso_digests.specs.Digests.{are_digests, digest_at, digests_in, have_length, is_digest, is_digest_map, is_namespace};
ghost use Rattle.mso_digests.specs.Nested.{has_length, has_lengths, of_namespace, under_namespace, under_number};

use cbor_view::{Pairs, View};

/// The bytes of a digest of SHA-256.
const LENGTH: usize = 32;

/// Whether it is a map of namespaces, each with a map of digest identifiers and digests.
pub(crate) fn is_digest_map(map: View<'_>) -> bool
    ensures { result ≡ is_digest_map (part map.entry) }
{
    match map.pairs() {
        Some(namespaces) => are_namespaces(namespaces),
        None => false,
    }
}

/// Whether each is a namespace with a map of digests.
fn are_namespaces(namespaces: Pairs<'_>) -> bool
    ensures { result ≡ list_all is_namespace (pairs_left namespaces.entry) }
{
    for (name, digests) in namespaces {
        if name.text().is_none() || !are_digests(digests) {
            return false;
        }
    }
    true
}

/// Whether it is a map of digest identifiers and digests.
fn are_digests(map: View<'_>) -> bool
    ensures { result ≡ are_digests (pairs_in (part map.entry)) }
{
    match map.pairs() {
        Some(digests) => are_all_digests(digests),
        None => false,
    }
}

/// Whether each is a digest identifier with a digest.
fn are_all_digests(digests: Pairs<'_>) -> bool
    ensures { result ≡ list_all is_digest (pairs_left digests.entry) }
{
    for (number, digest) in digests {
        if number.uint().is_none() || digest.bytes().is_none() {
            return false;
        }
    }
    true
}

/// Whether each digest has the length of one of SHA-256.
#[tactic(auto, using(crate::proofs::DigestLists::all_lengths))]
pub(crate) fn have_length(map: View<'_>) -> bool
    ensures { result ≡ have_length (digests_in (part map.entry)) }
{
    match map.pairs() {
        Some(namespaces) => have_lengths(namespaces),
        None => true,
    }
}

/// Whether each digest of these namespaces has that length.
fn have_lengths(namespaces: Pairs<'_>) -> bool
    ensures { result ≡ list_all has_lengths (pairs_left namespaces.entry) }
{
    for (name, digests) in namespaces {
        if !has_lengths(name, digests) {
            return false;
        }
    }
    true
}

/// Whether each digest of a namespace has that length.
fn has_lengths(name: View<'_>, digests: View<'_>) -> bool
    ensures { result ≡ has_lengths (part name.entry, part digests.entry) }
{
    match (name.text(), digests.pairs()) {
        (Some(_), Some(digests)) => are_long(digests),
        _ => true,
    }
}

/// Whether each of these digests has that length.
fn are_long(digests: Pairs<'_>) -> bool
    ensures { result ≡ list_all has_length (pairs_left digests.entry) }
{
    for (number, digest) in digests {
        if !has_length(number, digest) {
            return false;
        }
    }
    true
}

/// Whether a digest under a digest identifier has that length.
fn has_length(number: View<'_>, digest: View<'_>) -> bool
    ensures { result ≡ has_length (part number.entry, part digest.entry) }
{
    match (number.uint(), digest.bytes()) {
        (Some(_), Some(digest)) => digest.len() == LENGTH,
        _ => true,
    }
}

/// The first digest with that namespace and digest identifier.
#[tactic(auto, using(crate::proofs::DigestLists::digest_listed))]
pub(crate) fn digest_in<'a>(map: View<'a>, ns: &str, id: u64) -> Option<&'a [u8]>
    ensures { option_map content result ≡ digest_at ns.now id (digests_in (part map.entry)) }
{
    match map.pairs() {
        Some(namespaces) => under_namespace(namespaces, ns, id),
        None => None,
    }
}

/// The first digest with that namespace and digest identifier among these namespaces.
fn under_namespace<'a>(namespaces: Pairs<'a>, ns: &str, id: u64) -> Option<&'a [u8]>
    ensures { option_map content result ≡ under_namespace ns.now id (pairs_left namespaces.entry) }
{
    for (name, digests) in namespaces {
        if let Some(digest) = of_namespace(name, digests, ns, id) {
            return Some(digest);
        }
    }
    None
}

/// The first digest of a namespace with that digest identifier, where it is that namespace.
fn of_namespace<'a>(name: View<'_>, digests: View<'a>, ns: &str, id: u64) -> Option<&'a [u8]>
    ensures { option_map content result ≡ of_namespace ns.now id (text_in (part name.entry)) (part digests.entry) }
{
    let own = name.text()?;
    let digests = digests.pairs()?;
    if own == ns {
        under_number(digests, id)
    } else {
        None
    }
}

/// The first digest with that digest identifier.
fn under_number<'a>(digests: Pairs<'a>, id: u64) -> Option<&'a [u8]>
    ensures { option_map content result ≡ under_number id (pairs_left digests.entry) }
{
    for (number, digest) in digests {
        if let (Some(own), Some(digest)) = (number.uint(), digest.bytes()) {
            if own == id {
                return Some(digest);
            }
        }
    }
    None
}

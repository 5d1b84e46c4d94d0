//! The chain of certificates of a signature.

ghost use Rattle.std.specs.Prelude.{◌≡◌, Some, option_map};
ghost use Rattle.std.specs.List.{list_all};
ghost use Rattle.mdoc_outside.specs.Borrowed.{content};
ghost use Rattle.cbor_view.specs.Items.{left};
ghost use Rattle.cbor_view.specs.View.{part};
ghost use Rattle.cose_msgs.specs.Headers.{chain_in, first_certificate, first_of, is_bytes};

use cbor_view::{Items, Key, View};

/// The label of a chain of certificates (RFC 9360, section 2).
const CHAIN: i64 = 33;

/// The first certificate of the chain of an unprotected map.
#[tactic(auto, unfolding(cbor_maps::specs::Labels::labelled))]
pub(crate) fn chain_in(map: View<'_>) -> Option<&[u8]>
    ensures { option_map content result ≡ chain_in (part map.entry) }
{
    match map.entry(Key::Int(CHAIN)) {
        Ok(Some(value)) => first_certificate(value),
        Ok(None) => None,
        Err(_) => None,
    }
}

/// One string of bytes, or the first of an array of them.
fn first_certificate(value: View<'_>) -> Option<&[u8]>
    ensures { option_map content result ≡ first_certificate (part value.entry) }
{
    match value.bytes() {
        Some(bytes) => Some(bytes),
        None => match value.items() {
            Some(items) => first_of(items),
            None => None,
        },
    }
}

/// The first of an array of strings of bytes.
fn first_of(mut items: Items<'_>) -> Option<&[u8]>
    ensures { option_map content result ≡ first_of (Some (left items.entry)) }
{
    match items.next() {
        Some(first) => {
            if are_bytes(items) {
                first.bytes()
            } else {
                None
            }
        }
        None => None,
    }
}

/// Whether each is a string of bytes.
fn are_bytes(items: Items<'_>) -> bool
    ensures { result ≡ list_all is_bytes (left items.entry) }
{
    for item in items {
        if item.bytes().is_none() {
            return false;
        }
    }
    true
}

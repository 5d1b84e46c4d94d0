//! What was found under a key so far.

use cbor_view::View;

/// What was found under a key of a map so far.
#[derive(Clone, Copy)]
pub(crate) enum Found<'a> {
    /// Nothing yet.
    Missing,
    /// One value.
    Once(View<'a>),
    /// The key is there twice or more.
    Twice,
}

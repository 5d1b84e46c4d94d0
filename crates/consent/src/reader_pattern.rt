//! Which readers a rule matches.

use mdoc_outside::Octets;

/// Which readers a rule matches.
#[derive(Drop)]
pub enum ReaderPattern {
    /// Every reader, known or not.
    Any,
    /// Every reader whose authentication was confirmed.
    Known,
    /// The reader under the trusted root of this name.
    Named(Octets),
}

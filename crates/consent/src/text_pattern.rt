//! Which texts a rule matches.

use mdoc_outside::Octets;

/// Which texts a field of a rule matches.
#[derive(Drop)]
pub enum TextPattern {
    /// Every text.
    Any,
    /// This text alone.
    Exactly(Octets),
}

//! One rule of the holder.

ghost use Rattle.std.specs.Prelude.{◌≡◌, option_copied};
ghost use Rattle.consent.specs.Rule.{is_match, has_text, has_reader, has_intent};
ghost use Rattle.consent.specs.Wish.{wanted};

use crate::{ReaderPattern, TextPattern, Wish};

/// A rule of the holder: what it says of the wishes that its five other fields match.
#[derive(Drop)]
pub struct Rule {
    /// Whether the wish is allowed, or denied.
    pub allow: bool,
    /// The readers that it speaks of.
    pub reader: ReaderPattern,
    /// The document types that it speaks of.
    pub doc_type: TextPattern,
    /// The namespaces that it speaks of.
    pub ns: TextPattern,
    /// The element identifiers that it speaks of.
    pub element: TextPattern,
    /// The reader's intent to retain that it speaks of; `None` is either.
    pub retain: Option<bool>,
}

// Whether a text is of the pattern.
fn has_text(pattern: &TextPattern, text: &str) -> bool
    ensures { result ≡ has_text pattern.now text.now }
{
    match pattern {
        TextPattern::Any => true,
        TextPattern::Exactly(name) => name.as_slice() == text.as_bytes(),
    }
}

// Whether a reader, which is unknown where it has no name, is of the pattern.
fn has_reader(pattern: &ReaderPattern, reader: Option<&str>) -> bool
    ensures { result ≡ has_reader pattern.now (option_copied reader.entry) }
{
    match pattern {
        ReaderPattern::Any => true,
        ReaderPattern::Known => reader.is_some(),
        ReaderPattern::Named(name) => match reader {
            None => false,
            Some(reader) => name.as_slice() == reader.as_bytes(),
        },
    }
}

// Whether an intent to retain is the one that a rule names, if it names one.
fn has_intent(named: Option<bool>, retain: bool) -> bool
    ensures { result ≡ has_intent named retain }
{
    match named {
        None => true,
        Some(named) => named == retain,
    }
}

impl Rule {
    /// Whether the rule matches a reader's wish: each of its five fields does.
    pub fn is_match(&self, wish: &Wish<'_>, reader: Option<&str>) -> bool
        ensures { result ≡ is_match (option_copied reader.entry) (wanted wish.now) self.now }
    {
        has_reader(&self.reader, reader)
            && has_text(&self.doc_type, wish.doc_type)
            && has_text(&self.ns, wish.ns)
            && has_text(&self.element, wish.name)
            && has_intent(self.retain, wish.retain)
    }
}

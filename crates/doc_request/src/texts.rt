//! Texts that are keys twice.

ghost use Rattle.std.specs.Prelude.{◌≡◌, ◌≤◌, filter_map, length, map};
ghost use Rattle.cbor_view.specs.Pairs.{pairs_left};
ghost use Rattle.doc_request.specs.Spaces.{are_distinct};
ghost use Rattle.doc_request.specs.Texts.{are_apart, key_text};

use arrayvec::ArrayVec;
use cbor_view::Pairs;
use mdoc_outside::MOST_WISHES_OF_DOCUMENT;

/// Whether no text is a key twice. In the order of texts, equal ones follow one another.
pub(crate) fn are_distinct(entries: Pairs<'_>) -> bool
    requires { length (pairs_left entries) ≤ 512 }
    ensures { result ≡ are_distinct (pairs_left entries.entry) }
{
    let mut texts = texts_of(entries);
    texts.sort_unstable();
    are_apart(texts.as_slice())
}

/// The keys that are texts.
fn texts_of<'a>(entries: Pairs<'a>) -> ArrayVec<&'a str, MOST_WISHES_OF_DOCUMENT>
    requires { length (pairs_left entries) ≤ 512 }
    ensures { map (λ t. t.now) result.items ≡ filter_map key_text (pairs_left entries.entry) }
{
    let mut texts = ArrayVec::new();
    for (key, _) in entries {
        if let Some(text) = key.text() {
            texts.push(text);
        }
    }
    texts
}

/// Whether no text is the one before it.
fn are_apart(texts: &[&str]) -> bool
    ensures { result ≡ are_apart (map (λ t. t.now) texts.now) }
{
    let mut last = None;
    for text in texts {
        if last == Some(*text) {
            return false;
        }
        last = Some(*text);
    }
    true
}

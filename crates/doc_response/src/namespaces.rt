//! The namespaces of a list, each at its first appearance.

ghost use Rattle.std.specs.Prelude.{◌≡◌, IfOk, OnOk};
ghost use Rattle.doc_response.specs.Answered.{distinct_texts, has_text};
ghost use Rattle.doc_response.specs.Namespaces.{added, texts};

use mdoc_outside::Memory;
use std::alloc::Global;

/// Whether one of the texts is this one.
fn holds_text(list: &[&str], text: &str) -> bool
    ensures { result ≡ has_text text.now (texts list.now) }
{
    for other in list {
        if *other == text {
            return true;
        }
    }
    false
}

/// Adds a text, unless it is there.
fn add<'a>(found: &mut Vec<&'a str>, text: &'a str) -> Result<(), Memory>
    ensures { OnOk result (texts found.new.items ≡ added text.now (texts found.old.items)) }
{
    if holds_text(found, text) {
        return Ok(());
    }
    found.push(text)?;
    Ok(())
}

/// Each text of a list, at its first place: the namespaces of a list of items, say.
pub fn distinct_texts<'a>(alloc: Global, list: &[&'a str]) -> Result<Vec<&'a str>, Memory>
    ensures { IfOk result (λ found. texts found.items ≡ distinct_texts (texts list.now)) }
{
    let mut found = Vec::new(alloc);
    for text in list {
        add(&mut found, text)?;
    }
    Ok(found)
}

//! The names that were seen.

ghost use Rattle.std.specs.Prelude.{◌≡◌, ◌||◌, IfOk, List, OnOk, [], ℕ};
ghost use Rattle.std.specs.Str.{bytes_eq};
ghost use Rattle.doc_store.specs.Names.{names_seen, was_seen};

use mdoc_outside::Memory;
use std::alloc::Global;
use std::collections::BTreeSet;

/// Names that were seen.
#[derive(Drop)]
pub(crate) struct Names<'a> {
    seen: BTreeSet<&'a str>,
}

impl<'a> Names<'a> {
    /// None of them yet.
    pub(crate) fn new(alloc: Global) -> Names<'a>
        ensures { names_seen result ≡ [] }
    {
        Names {
            seen: BTreeSet::new(alloc),
        }
    }

    /// Whether a name was seen before. From now on it was.
    pub(crate) fn seen_before(&mut self, name: &'a str) -> Result<bool, Memory>
        ensures before { IfOk result (λ before. before ≡ was_seen self.old name.now) }
        ensures after { OnOk result
            ((other : List ℕ) → was_seen self.new other ≡ (bytes_eq other name.now || was_seen self.old other)) }
    {
        let added = self.seen.insert(name)?;
        Ok(!added)
    }
}

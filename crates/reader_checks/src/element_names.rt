//! The names of elements.

ghost use Rattle.std.specs.Prelude.{◌≡◌, ◌&&◌, ◌||◌, ℕ, List, OnOk, false, not};
ghost use Rattle.std.specs.Str.{bytes_eq};
ghost use Rattle.reader_checks.specs.ElementNames.{has_name, is_in};

use mdoc_outside::Memory;
use std::alloc::Global;
use std::collections::{BTreeMap, BTreeSet};

/// The names of elements, each in its namespace: one is found without a walk over the others.
#[derive(Drop)]
pub(crate) struct ElementNames<'a> {
    namespaces: BTreeMap<&'a [u8], BTreeSet<&'a [u8]>>,
}

impl<'a> ElementNames<'a> {
    /// None of them yet.
    pub(crate) fn new(alloc: Global) -> ElementNames<'a>
        ensures { (ns : List ℕ) (name : List ℕ) → has_name result ns name ≡ false }
    {
        ElementNames {
            namespaces: BTreeMap::new(alloc),
        }
    }

    /// Whether one of them is of that namespace and name.
    pub(crate) fn contains(&self, ns: &[u8], name: &[u8]) -> bool
        ensures { result ≡ has_name self.now ns.now name.now }
    {
        match self.namespaces.get(ns) {
            Some(names) => names.contains(name),
            None => false,
        }
    }

    /// One element more.
    pub(crate) fn add(&mut self, alloc: Global, ns: &'a [u8], name: &'a [u8]) -> Result<(), Memory>
        ensures { OnOk result ((own : List ℕ) (other : List ℕ) → has_name self.new own other ≡ (has_name self.old own other || bytes_eq ns.now own && bytes_eq name.now other)) }
    {
        let mut names = self.take(alloc, ns);
        names.insert(name)?;
        self.namespaces.insert(ns, names)?;
        Ok(())
    }

    /// Takes out the names of a namespace.
    fn take(&mut self, alloc: Global, ns: &[u8]) -> BTreeSet<&'a [u8]>
        ensures taken { (name : List ℕ) → is_in result name ≡ has_name self.old ns.now name }
        ensures left { (own : List ℕ) (name : List ℕ) → has_name self.new own name ≡ (not (bytes_eq ns.now own) && has_name self.old own name) }
    {
        match self.namespaces.remove(ns) {
            Some(names) => names,
            None => BTreeSet::new(alloc),
        }
    }
}

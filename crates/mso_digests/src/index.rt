//! The digests of a security object, by their namespaces and digest identifiers.

ghost use Rattle.std.specs.Prelude.{◌≡◌, if◌then◌else◌, ℕ, List, IfOk, OnOk, None, Some, option_map};
ghost use Rattle.std.specs.Option.{option_or};
ghost use Rattle.std.specs.Str.{bytes_eq};
ghost use Rattle.mdoc_outside.specs.Borrowed.{content};
ghost use Rattle.cbor_view.specs.Pairs.{pairs_left};
ghost use Rattle.cbor_view.specs.Parts.{bytes_in, text_in, uint_in};
ghost use Rattle.cbor_view.specs.View.{part};
ghost use Rattle.mso_digests.specs.Digests.{digests_in};
ghost use Rattle.mso_digests.specs.Indexed.{IsIndexOf, indexed, numbered};
ghost use Rattle.mso_digests.specs.Nested.{chosen, of_namespace, under_namespace, under_number};

use cbor_view::{Pairs, View};
use mdoc_outside::Memory;
use std::alloc::Global;
use std::collections::BTreeMap;

/// The digests of a security object (ISO/IEC 18013-5, 9.1.2.4), by their namespaces and digest identifiers: one is found without a
/// walk over the others.
#[derive(Drop)]
pub struct DigestIndex<'a> {
    namespaces: BTreeMap<&'a str, BTreeMap<u64, &'a [u8]>>,
}

/// Adds a digest, where there is none under that digest identifier.
fn put_digest<'a>(
    numbers: &mut BTreeMap<u64, &'a [u8]>,
    number: u64,
    digest: &'a [u8],
) -> Result<(), Memory>
    ensures { OnOk result ((id : ℕ) → numbered numbers.new id ≡ option_or (numbered numbers.old id) (chosen id (Some number) (Some digest.now) None)) }
{
    if !numbers.contains_key(&number) {
        numbers.insert(number, digest)?;
    }
    Ok(())
}

/// Adds what is under a key, where it is a digest under a digest identifier.
#[tactic(auto, using(crate::proofs::IndexedDigests::first_alone))]
fn put_entry<'a>(
    numbers: &mut BTreeMap<u64, &'a [u8]>,
    key: View<'_>,
    value: View<'a>,
) -> Result<(), Memory>
    ensures { OnOk result ((id : ℕ) → numbered numbers.new id ≡ option_or (numbered numbers.old id) (chosen id (uint_in (part key.entry)) (bytes_in (part value.entry)) None)) }
{
    match (key.uint(), value.bytes()) {
        (Some(number), Some(digest)) => put_digest(numbers, number, digest),
        _ => Ok(()),
    }
}

/// Adds the digests of a namespace.
#[tactic(auto, using(crate::proofs::IndexedDigests::first_alone, crate::proofs::IndexedDigests::first_chosen))]
fn put_digests<'a>(numbers: &mut BTreeMap<u64, &'a [u8]>, digests: Pairs<'a>) -> Result<(), Memory>
    ensures { OnOk result ((id : ℕ) → numbered numbers.new id ≡ option_or (numbered numbers.old id) (under_number id (pairs_left digests.entry))) }
{
    for (key, value) in digests {
        put_entry(numbers, key, value)?;
    }
    Ok(())
}

impl<'a> DigestIndex<'a> {
    /// The digests of a map of namespaces, digest identifiers and digests.
    #[tactic(auto, using(crate::proofs::DigestLists::digest_listed))]
    pub(crate) fn of(alloc: Global, map: View<'a>) -> Result<DigestIndex<'a>, Memory>
        ensures { IfOk result (λ index. IsIndexOf index (digests_in (part map.entry))) }
    {
        let mut index = DigestIndex {
            namespaces: BTreeMap::new(alloc),
        };
        if let Some(namespaces) = map.pairs() {
            index.put_namespaces(alloc, namespaces)?;
        }
        Ok(index)
    }

    /// Adds the digests of namespaces.
    #[tactic(auto, using(crate::proofs::IndexedDigests::first_alone, crate::proofs::IndexedDigests::first_joined))]
    fn put_namespaces(&mut self, alloc: Global, namespaces: Pairs<'a>) -> Result<(), Memory>
        ensures { OnOk result ((ns : List ℕ) (id : ℕ) → indexed self.new ns id ≡ option_or (indexed self.old ns id) (under_namespace ns id (pairs_left namespaces.entry))) }
    {
        for (name, digests) in namespaces {
            self.put_under(alloc, name, digests)?;
        }
        Ok(())
    }

    /// Adds what is under a key, where it is a namespace with its digests.
    #[tactic(auto, using(crate::proofs::IndexedDigests::first_alone))]
    fn put_under(&mut self, alloc: Global, name: View<'a>, digests: View<'a>) -> Result<(), Memory>
        ensures { OnOk result ((ns : List ℕ) (id : ℕ) → indexed self.new ns id ≡ option_or (indexed self.old ns id) (of_namespace ns id (text_in (part name.entry)) (part digests.entry))) }
    {
        match (name.text(), digests.pairs()) {
            (Some(name), Some(digests)) => self.put_namespace(alloc, name, digests),
            _ => Ok(()),
        }
    }

    /// Adds the digests of a namespace.
    fn put_namespace(
        &mut self,
        alloc: Global,
        name: &'a str,
        digests: Pairs<'a>,
    ) -> Result<(), Memory>
        ensures { OnOk result ((ns : List ℕ) (id : ℕ) → indexed self.new ns id ≡ option_or (indexed self.old ns id) (if bytes_eq name.now ns then under_number id (pairs_left digests.entry) else None)) }
    {
        let mut numbers = self.take(alloc, name);
        put_digests(&mut numbers, digests)?;
        self.namespaces.insert(name, numbers)?;
        Ok(())
    }

    /// Takes out the digests of a namespace.
    fn take(&mut self, alloc: Global, name: &str) -> BTreeMap<u64, &'a [u8]>
        ensures taken { (id : ℕ) → numbered result id ≡ indexed self.old name.now id }
        ensures left { (ns : List ℕ) (id : ℕ) → indexed self.new ns id ≡ (if bytes_eq name.now ns then None else indexed self.old ns id) }
    {
        match self.namespaces.remove(name) {
            Some(numbers) => numbers,
            None => BTreeMap::new(alloc),
        }
    }

    /// The digest of the item with that digest identifier in that namespace, none where there is no such digest.
    pub fn digest(&self, ns: &str, id: u64) -> Option<&'a [u8]>
        ensures { option_map content result ≡ indexed self.now ns.now id }
    {
        self.namespaces.get(ns)?.get(&id).copied()
    }
}

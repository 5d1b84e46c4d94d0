//! The elements that are accepted.

ghost use Rattle.std.specs.Prelude.{◌≡◌, ◌&&◌, ◌||◌, ℕ, List, IfOk, OnOk, not};
ghost use Rattle.std.specs.List.{list_any};
ghost use Rattle.std.specs.Str.{bytes_eq};
ghost use Rattle.reader_checks.specs.ElementNames.{has_element, has_name};
ghost use Rattle.verdict_model.specs.Elements.{is_accepted};
ghost use Rattle.verdict_model.specs.Verdict.{accepts, is_answered};
ghost use Rattle.verdict_model.specs.declared.named.Named.{Named};

use crate::element_names::ElementNames;
use mdoc_outside::Memory;
use std::alloc::Global;
use std::collections::BTreeMap;
use verdict_model::{DocVerdict, ElementVerdict};

/// The elements that are accepted of documents, each under its document type: one is found without a walk over the others.
#[derive(Drop)]
pub(crate) struct AcceptedElements<'a> {
    types: BTreeMap<&'a [u8], ElementNames<'a>>,
}

/// Adds an element, where it is accepted.
#[tactic(auto, using(crate::proofs::NameSets::refused_adds, crate::proofs::NameSets::accepted_adds))]
fn add_verdict<'a>(
    alloc: Global,
    verdict: &'a ElementVerdict,
    names: &mut ElementNames<'a>,
) -> Result<(), Memory>
    ensures { OnOk result ((ns : List ℕ) (name : List ℕ) → has_name names.new ns name ≡ (has_name names.old ns name || is_accepted ns name verdict.now)) }
{
    if verdict.refused.is_none() {
        names.add(alloc, verdict.ns.as_slice(), verdict.name.as_slice())?;
    }
    Ok(())
}

/// Adds the elements that are accepted.
#[tactic(auto, using(crate::proofs::NameSets::joined, crate::proofs::NameSets::or_none))]
fn add_verdicts<'a>(
    alloc: Global,
    verdicts: &'a [ElementVerdict],
    names: &mut ElementNames<'a>,
) -> Result<(), Memory>
    ensures { OnOk result ((ns : List ℕ) (name : List ℕ) → has_name names.new ns name ≡ (has_name names.old ns name || list_any (is_accepted ns name) verdicts.now)) }
{
    for verdict in verdicts {
        add_verdict(alloc, verdict, names)?;
    }
    Ok(())
}

impl<'a> AcceptedElements<'a> {
    /// Those of some documents.
    #[tactic(auto, using(crate::proofs::NameSets::joined, crate::proofs::NameSets::or_none))]
    pub(crate) fn of(
        alloc: Global,
        documents: &'a [DocVerdict],
    ) -> Result<AcceptedElements<'a>, Memory>
        ensures { IfOk result (λ accepted. (wanted : Named) → has_element accepted wanted ≡ is_answered documents.now wanted) }
    {
        let mut accepted = AcceptedElements {
            types: BTreeMap::new(alloc),
        };
        for document in documents {
            accepted.add(alloc, document)?;
        }
        Ok(accepted)
    }

    /// Adds those of a document.
    fn add(&mut self, alloc: Global, document: &'a DocVerdict) -> Result<(), Memory>
        ensures { OnOk result ((wanted : Named) → has_element self.new wanted ≡ (has_element self.old wanted || accepts wanted document.now)) }
    {
        let doc_type = document.doc_type.as_slice();
        let elements = document.elements.as_slice();
        let mut names = self.take(alloc, doc_type);
        add_verdicts(alloc, elements, &mut names)?;
        self.types.insert(doc_type, names)?;
        Ok(())
    }

    /// Takes out those under a document type.
    fn take(&mut self, alloc: Global, doc_type: &[u8]) -> ElementNames<'a>
        ensures taken { (ns : List ℕ) (name : List ℕ) → has_name result ns name ≡ has_element self.old (record { doc_type = doc_type.now; ns = ns; name = name }) }
        ensures left { (wanted : Named) → has_element self.new wanted ≡ (not (bytes_eq doc_type.now wanted.doc_type) && has_element self.old wanted) }
    {
        match self.types.remove(doc_type) {
            Some(names) => names,
            None => ElementNames::new(alloc),
        }
    }

    /// Whether one of them is that element.
    pub(crate) fn contains(&self, doc_type: &[u8], ns: &[u8], name: &[u8]) -> bool
        ensures { result ≡ has_element self.now (record { doc_type = doc_type.now; ns = ns.now; name = name.now }) }
    {
        match self.types.get(doc_type) {
            Some(names) => names.contains(ns, name),
            None => false,
        }
    }
}

//! The verdicts on the elements of a document.

ghost use Rattle.std.specs.Prelude.{◌≡◌, ◌&&◌, ◌||◌, ℕ, List, IfOk, OnOk, [], None, Some, is_none, true};
ghost use Rattle.std.specs.Str.{bytes_eq};
ghost use Rattle.cbor_view.specs.View.{part};
ghost use Rattle.doc_response.specs.ResponseItems.{items_left};
ghost use Rattle.issuer_items.specs.ItemView.{fields};
ghost use Rattle.mso_digests.specs.Digests.{have_length};
ghost use Rattle.mso_digests.specs.MsoView.{object_seen};
ghost use Rattle.reader_checks.specs.ElementNames.{has_name};
ghost use Rattle.reader_checks.specs.FirstCheck.{HaveLength, element_verdict};
ghost use Rattle.verdict_model.specs.Elements.{element_verdicts, is_accepted};
ghost use Rattle.verdict_model.specs.declared.element_check.ElementCheck.TheVariants.{ItemForm};

use crate::element_names::ElementNames;
use crate::first_check::first_check;
use crate::requested::requested_elements;
use cbor_view::View;
use doc_request::RequestDraft;
use doc_response::ResponseItems;
use issuer_items::Item;
use mdoc_outside::{Memory, Octets, Rows};
use mso_digests::{DigestIndex, Mso};
use std::alloc::Global;
use verdict_model::{ElementCheck, ElementVerdict};

/// The verdict on an item of a namespace, with the check that fails.
fn with_check(
    alloc: Global,
    ns: &str,
    item: &Item<'_>,
    refused: Option<ElementCheck>,
) -> Result<ElementVerdict, Memory>
    ensures { IfOk result (λ verdict. verdict ≡ record { ns = ns.now; name = (fields item.now).name; value = (fields item.now).value; refused = refused }) }
{
    let ns = Octets::copy_of(alloc, ns.as_bytes())?;
    let name = Octets::copy_of(alloc, item.name().as_bytes())?;
    let value = Octets::copy_of(alloc, item.value().raw())?;
    Ok(ElementVerdict {
        ns,
        name,
        value,
        refused,
    })
}

/// The verdict on what is no item.
fn of_other_form(alloc: Global, ns: &str) -> Result<ElementVerdict, Memory>
    ensures { IfOk result (λ verdict. verdict ≡ record { ns = ns.now; name = []; value = []; refused = Some ItemForm }) }
{
    let ns = Octets::copy_of(alloc, ns.as_bytes())?;
    Ok(ElementVerdict {
        ns,
        name: Octets::from_vec(Vec::new(alloc)),
        value: Octets::from_vec(Vec::new(alloc)),
        refused: Some(ElementCheck::ItemForm),
    })
}

/// Adds an element, where no check refuses it.
#[tactic(auto, using(crate::proofs::NameSets::refused_adds, crate::proofs::NameSets::accepted_adds))]
fn add_accepted<'a>(
    alloc: Global,
    ns: &'a str,
    name: &'a str,
    refused: &Option<ElementCheck>,
    accepted: &mut ElementNames<'a>,
) -> Result<(), Memory>
    ensures { OnOk result ((own : List ℕ) (other : List ℕ) → has_name accepted.new own other ≡ (has_name accepted.old own other || bytes_eq ns.now own && bytes_eq name.now other && is_none refused.now)) }
{
    if refused.is_none() {
        accepted.add(alloc, ns.as_bytes(), name.as_bytes())?;
    }
    Ok(())
}

/// The verdict on an element of a namespace. From then on it is among the accepted ones, where it is accepted.
fn element_verdict<'a>(
    alloc: Global,
    digests: &DigestIndex<'_>,
    requested: &ElementNames<'_>,
    accepted: &mut ElementNames<'a>,
    ns: &'a str,
    element: View<'a>,
) -> Result<ElementVerdict, Memory>
    requires { HaveLength digests.now }
    ensures verdict { IfOk result (λ verdict. verdict ≡ element_verdict digests.now requested.now accepted.old (ns.now, part element.entry)) }
    ensures accepted { IfOk result (λ verdict. (own : List ℕ) (other : List ℕ) → has_name accepted.new own other ≡ (has_name accepted.old own other || is_accepted own other verdict)) }
{
    match Item::read(element.raw()) {
        Ok(item) => {
            let refused = first_check(digests, requested, accepted, ns, &item);
            add_accepted(alloc, ns, item.name(), &refused, accepted)?;
            with_check(alloc, ns, &item, refused)
        }
        Err(_) => of_other_form(alloc, ns),
    }
}

/// The verdicts on the elements of a document, in order (ISO/IEC 18013-5, 9.1.2.4): by the security object that its issuer
/// signed, and by what was asked for.
#[tactic(auto, unfolding(verdict_model::specs::Elements::element_verdicts))]
pub fn element_verdicts(
    alloc: Global,
    request: &RequestDraft,
    object: &Mso<'_>,
    items: ResponseItems<'_>,
) -> Result<Rows<ElementVerdict>, Memory>
    requires { have_length (object_seen object.now).digests ≡ true }
    ensures { IfOk result (λ verdicts. verdicts ≡ element_verdicts request.now (object_seen object.now) (items_left items.entry)) }
{
    let digests = object.index(alloc)?;
    let requested = requested_elements(alloc, request, object.doc_type())?;
    let mut accepted = ElementNames::new(alloc);
    let mut verdicts = Vec::new(alloc);
    for (ns, element) in items {
        let verdict = element_verdict(alloc, &digests, &requested, &mut accepted, ns, element)?;
        verdicts.push(verdict)?;
    }
    Ok(Rows::from_vec(verdicts))
}

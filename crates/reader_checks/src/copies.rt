//! The copies of a document.

ghost use Rattle.std.specs.Prelude.{◌≡◌, length};
ghost use Rattle.cbor_view.specs.View.{part};
ghost use Rattle.doc_store.specs.Document.{document_of};
ghost use Rattle.doc_store.specs.StoredCopy.{copy_of};
ghost use Rattle.key_device.specs.Gave.{Counts, Gave};
ghost use Rattle.key_device.specs.Plan.{Follows};
ghost use Rattle.key_device.specs.PlanSteps.{each};
ghost use Rattle.key_device.specs.Recording.{inner, talk};
ghost use Rattle.verdict_model.specs.Checked.{copy_checks, signature_of};
ghost use Rattle.reader_checks.specs.PackageEnding.{all_came_to, came_to, copy_fails};

use crate::failure::{Failure, failure_of};
use crate::items::items_check;
use cbor_view::View;
use doc_store::{Document, StoredCopy};
use issuer_checks::{TrustedRoots, issuer_says};
use key_device::{KeyDevice, Recorder};
use std::alloc::Global;

/// The issuer's signature of a copy, as one item.
fn signature_of<'a>(copy: &StoredCopy<'a>) -> View<'a>
    ensures { part result ≡ signature_of (copy_of copy.now) }
{
    match View::read(copy.issuer_auth().raw()) {
        Ok(signature) => signature,
        Err(_) => unreachable!(),
    }
}

/// Whether no check of a copy fails: what its issuer says, and then each of its items.
#[tactic(auto, using(key_device::proofs::PlanLemmas::exits, key_device::proofs::GaveLemmas::gave_exits))]
fn copy_checks<D: KeyDevice>(
    alloc: Global,
    trust: &TrustedRoots<'_>,
    doc_type: &str,
    copy: &StoredCopy<'_>,
    device: &mut Recorder<D>,
) -> Result<(), Failure>
    ensures asked { Follows (copy_checks trust.now.roots.now trust.now.moment doc_type.now (copy_of copy.now)) (talk device.old) (talk device.new) (came_to result) }
    ensures gave { Gave D.gives D.unasked D.faults device.old device.new }
    ensures counts { Counts (copy_fails result) (D.faults (inner device.old)) (D.faults (inner device.new)) }
{
    let issued = match issuer_says(alloc, trust, doc_type, signature_of(copy), device) {
        Ok(issued) => issued,
        Err(stop) => return Err(failure_of(stop)),
    };
    items_check(alloc, &issued.object, doc_type, copy.items())
}

/// Whether no check of a document's copies fails, in their order.
pub(crate) fn copies_checks<D: KeyDevice>(
    alloc: Global,
    trust: &TrustedRoots<'_>,
    document: &Document<'_>,
    device: &mut Recorder<D>,
) -> Result<(), Failure>
    ensures asked { Follows (each (copy_checks trust.now.roots.now trust.now.moment (document_of document.now).doc_type) (document_of document.now).copies)
        (talk device.old) (talk device.new) (all_came_to (length (document_of document.now).copies) result) }
    ensures gave { Gave D.gives D.unasked D.faults device.old device.new }
    ensures counts { Counts (copy_fails result) (D.faults (inner device.old)) (D.faults (inner device.new)) }
{
    let doc_type = document.doc_type();
    for place in 0..document.copies() {
        match copy_checks(alloc, trust, doc_type, &document.copy(place), device) {
            Ok(()) => {}
            Err(failure) => return Err(failure),
        }
    }
    Ok(())
}

//! The documents of a package.

ghost use Rattle.std.specs.Prelude.{◌≡◌, IfOk, OnErr};
ghost use Rattle.key_device.specs.Ends.{came_to as device_came_to};
ghost use Rattle.doc_store.specs.Document.{document_of};
ghost use Rattle.doc_store.specs.StoreView.{documents_in};
ghost use Rattle.mdoc_outside.specs.Faults.{HasCause};
ghost use Rattle.key_device.specs.Gave.{Gave};
ghost use Rattle.key_device.specs.Plan.{Follows};
ghost use Rattle.key_device.specs.Recording.{inner, talk};
ghost use Rattle.key_device.specs.declared.device_fault.DeviceFault.TheVariants as faults;
ghost use Rattle.verdict_model.specs.Checked.{checked, checked_document, verdict_with};

use crate::copies::copies_checks;
use crate::failure::Failure;
use cert_view::Roots;
use doc_store::{Document, Store};
use issuer_checks::TrustedRoots;
use key_device::{DeviceFault, KeyDevice, Recorder};
use mdoc_outside::{Memory, Octets, Rows};
use std::alloc::Global;
use verdict_model::{DocCheck, ElementCheck, Named, PackageVerdict};

/// What is found of a document, with the first check that fails.
fn verdict_with(
    alloc: Global,
    document: &Document<'_>,
    refused: Option<DocCheck>,
    item: Option<(Named, ElementCheck)>,
) -> Result<PackageVerdict, DeviceFault>
    ensures came { IfOk result (λ it. it ≡ verdict_with (document_of document.now) refused item) }
    ensures memory { OnErr result (result ≡ Err faults.Memory) }
{
    match Octets::copy_of(alloc, document.doc_type().as_bytes()) {
        Ok(doc_type) => Ok(PackageVerdict {
            doc_type,
            copies: document.copies() as u64,
            refused,
            item,
        }),
        Err(_) => Err(DeviceFault::Memory),
    }
}

/// What is found of a document.
#[tactic(auto, using(key_device::proofs::PlanStepLemmas::mapped_exits, key_device::proofs::PlanLemmas::halted, key_device::proofs::GaveLemmas::gave_exits), unfolding(verdict_model::specs::Checked::checked_document))]
fn checked_document<D: KeyDevice>(
    alloc: Global,
    trust: &TrustedRoots<'_>,
    document: &Document<'_>,
    device: &mut Recorder<D>,
) -> Result<PackageVerdict, DeviceFault>
    ensures asked { Follows (checked_document trust.now.roots.now trust.now.moment (document_of document.now)) (talk device.old) (talk device.new) (device_came_to faults.Failed (λ it. it) result) }
    ensures gave { Gave D.gives D.unasked D.faults device.old device.new }
    ensures cause { HasCause faults.Failed faults.Memory (D.faults (inner device.old)) (D.faults (inner device.new)) result }
{
    match copies_checks(alloc, trust, document, device) {
        Ok(()) => verdict_with(alloc, document, None, None),
        Err(Failure::DocFails(check)) => verdict_with(alloc, document, Some(check), None),
        Err(Failure::ItemFails(element, check)) => {
            verdict_with(alloc, document, None, Some((element, check)))
        }
        Err(Failure::Device) => Err(DeviceFault::Failed),
        Err(Failure::Memory) => Err(DeviceFault::Memory),
    }
}

/// What is found of each document, in order.
#[tactic(auto, using(key_device::proofs::GaveLemmas::gave_exits), unfolding(verdict_model::specs::Checked::checked))]
fn checked_documents<D: KeyDevice>(
    alloc: Global,
    trust: &TrustedRoots<'_>,
    store: &Store<'_>,
    device: &mut Recorder<D>,
) -> Result<Rows<PackageVerdict>, DeviceFault>
    ensures asked { Follows (checked trust.now.roots.now trust.now.moment (documents_in store.now)) (talk device.old) (talk device.new) (device_came_to faults.Failed (λ all. all) result) }
    ensures gave { Gave D.gives D.unasked D.faults device.old device.new }
    ensures cause { HasCause faults.Failed faults.Memory (D.faults (inner device.old)) (D.faults (inner device.new)) result }
{
    let mut checked = Vec::new(alloc);
    for place in 0..store.documents() {
        match checked.reserve(1) {
            Ok(()) => {}
            Err(_) => return Err(DeviceFault::Memory),
        }
        match checked_document(alloc, trust, &store.document(place), device) {
            Ok(verdict) => checked.push_reserved(verdict),
            Err(DeviceFault::Failed) => return Err(DeviceFault::Failed),
            Err(DeviceFault::Memory) => return Err(DeviceFault::Memory),
        }
    }
    Ok(Rows::from_vec(checked))
}

/// What is found of each document of a package, in order (ISO/IEC 18013-5, 9.1.2 and 9.3.1), with the trusted roots and at
/// the moment in seconds since 1970: the first check of its copies and their items that fails, or none. `Failed` is
/// answered only where the reader's device failed.
pub fn check_package<E: KeyDevice>(
    alloc: Global,
    store: &Store<'_>,
    roots: &Roots,
    moment: i64,
    device: &mut Recorder<E>,
) -> Result<Rows<PackageVerdict>, DeviceFault>
    ensures asked { Follows (checked roots.now moment (documents_in store.now)) (talk device.old) (talk device.new) (device_came_to faults.Failed (λ all. all) result) }
    ensures gave { Gave E.gives E.unasked E.faults device.old device.new }
    ensures cause { HasCause faults.Failed faults.Memory (E.faults (inner device.old)) (E.faults (inner device.new)) result }
{
    let trust = TrustedRoots {
        roots: roots.list(),
        moment,
    };
    checked_documents(alloc, &trust, store, device)
}

//! The import of a package.

ghost use Rattle.std.specs.Prelude.{◌≡◌};
ghost use Rattle.doc_store.specs.StoreView.{documents_in};
ghost use Rattle.key_device.specs.Gave.{Counts, Gave};
ghost use Rattle.key_device.specs.Plan.{Follows};
ghost use Rattle.key_device.specs.Recording.{inner, talk};
ghost use Rattle.store_write.specs.Merged.{merged};
ghost use Rattle.package_import.specs.Import.{Comes, MergesInto, are_accepted, came_to, import_checks, imported_of, is_accepted, is_device};

use crate::{ImportFault, Imported};
use cert_view::Roots;
use doc_store::Store;
use key_device::{DeviceFault, KeyDevice, Recorder};
use mdoc_outside::{LimitName, Octets, Rows};
use reader_checks::check_package;
use std::alloc::Global;
use store_write::{MergeFault, merge_stores};
use verdict_model::PackageVerdict;

/// Whether a document is accepted: no check of it, and of none of its items, fails.
pub fn is_accepted(verdict: &PackageVerdict) -> bool
    ensures { result ≡ is_accepted verdict.now }
{
    verdict.refused.is_none() && verdict.item.is_none()
}

/// Whether that is so of all documents.
fn are_accepted(verdicts: &[PackageVerdict]) -> bool
    ensures { result ≡ are_accepted verdicts.now }
{
    for verdict in verdicts {
        if !is_accepted(verdict) {
            return false;
        }
    }
    true
}

/// The bytes of the merged store.
fn merged_bytes(alloc: Global, own: &Store<'_>, received: &Store<'_>) -> Result<Octets, ImportFault>
    ensures { MergesInto (merged (documents_in own.now) (documents_in received.now)) result }
{
    match merge_stores(alloc, own, received) {
        Ok(bytes) => Ok(bytes),
        Err(MergeFault::Documents(count)) => {
            Err(ImportFault::Limit(LimitName::Documents, count))
        }
        Err(MergeFault::Bytes(length)) => Err(ImportFault::Limit(LimitName::FileBytes, length)),
        Err(MergeFault::Memory) => Err(ImportFault::Memory),
    }
}

/// What comes of an import by what is found of the package's documents.
fn imported_of(
    alloc: Global,
    own: &Store<'_>,
    received: &Store<'_>,
    verdicts: Rows<PackageVerdict>,
) -> Result<Imported, ImportFault>
    ensures { Comes (imported_of (documents_in own.now) (documents_in received.now) verdicts) result }
{
    if !are_accepted(verdicts.as_slice()) {
        return Ok(Imported {
            merged: None,
            verdicts,
        });
    }
    match merged_bytes(alloc, own, received) {
        Ok(bytes) => Ok(Imported {
            merged: Some(bytes),
            verdicts,
        }),
        Err(fault) => Err(fault),
    }
}

/// Imports the package that was received into a store (ISO/IEC 18013-5, 9.1.2 and 9.3.1), with the trusted roots and at the
/// moment in seconds since 1970. Where a document is refused nothing is merged. It is
/// refused where the reader's device fails, exactly where the merged store would pass 16 documents or 16,777,216 bytes,
/// and for want of memory.
#[tactic(auto, using(crate::proofs::Outcomes::outcome_of, key_device::proofs::PlanStepLemmas::mapped_exits), unfolding(crate::specs::Import::import_checks))]
pub fn import_package<E: KeyDevice>(
    alloc: Global,
    own: &Store<'_>,
    received: &Store<'_>,
    roots: &Roots,
    moment: i64,
    device: &mut Recorder<E>,
) -> Result<Imported, ImportFault>
    ensures asked { Follows (import_checks roots.now moment (documents_in own.now) (documents_in received.now)) (talk device.old) (talk device.new) (came_to result) }
    ensures gave { Gave E.gives E.unasked E.faults device.old device.new }
    ensures cause { Counts (is_device result) (E.faults (inner device.old)) (E.faults (inner device.new)) }
{
    let verdicts = match check_package(alloc, received, roots, moment, device) {
        Ok(verdicts) => verdicts,
        Err(DeviceFault::Failed) => return Err(ImportFault::Device),
        Err(DeviceFault::Memory) => return Err(ImportFault::Memory),
    };
    imported_of(alloc, own, received, verdicts)
}

//! The verdicts on the documents of a response.

ghost use Rattle.std.specs.Prelude.{◌≡◌, IfOk, [], Some, None, true};
ghost use Rattle.mdoc_outside.specs.Faults.{HasCause};
ghost use Rattle.doc_response.specs.ResponseDocs.{document_seen, documents_left};
ghost use Rattle.reader_checks.specs.Views.{setting_seen};
ghost use Rattle.issuer_checks.specs.Views.{issued_seen};
ghost use Rattle.key_device.specs.Gave.{Gave};
ghost use Rattle.key_device.specs.Plan.{Follows};
ghost use Rattle.key_device.specs.PlanSteps.{each};
ghost use Rattle.key_device.specs.Recording.{inner, talk};
ghost use Rattle.mso_digests.specs.Digests.{have_length};
ghost use Rattle.mso_digests.specs.MsoView.{object_seen};
ghost use Rattle.verdict_model.specs.Documents.{judged_document};
ghost use Rattle.reader_checks.specs.Ending.{accepted_document, came_to};
ghost use Rattle.reader_checks.specs.declared.judge_fault.JudgeFault.TheVariants.{Device, Memory};

use crate::JudgeFault;
use crate::device_signed::device_elements;
use crate::document::document_checks;
use crate::elements::element_verdicts;
use crate::judge_context::JudgeContext;
use doc_response::{ResponseDoc, ResponseDocs};
use issuer_checks::{CheckEnd, IssuerStatement};
use key_device::{KeyDevice, Recorder};
use mdoc_outside::{Memory as OutOfMemory, Octets, Rows};
use std::alloc::Global;
use verdict_model::{DocCheck, DocVerdict};

/// The verdict on a document none of whose checks fails.
fn accepted_document(
    alloc: Global,
    setting: &JudgeContext<'_>,
    document: &ResponseDoc<'_>,
    it: &IssuerStatement<'_>,
) -> Result<DocVerdict, OutOfMemory>
    requires { have_length (object_seen it.now.object).digests ≡ true }
    ensures { IfOk result (λ verdict. verdict ≡ accepted_document (setting_seen setting.now) (document_seen document.now) (issued_seen it.now)) }
{
    let doc_type = Octets::copy_of(alloc, document.doc_type().as_bytes())?;
    let elements = element_verdicts(alloc, setting.request, &it.object, document.items())?;
    let device_elements = device_elements(alloc, document)?;
    Ok(DocVerdict {
        doc_type,
        refused: None,
        elements,
        device_elements,
    })
}

/// The verdict on a document that is refused.
fn refused_document(
    alloc: Global,
    document: &ResponseDoc<'_>,
    check: DocCheck,
) -> Result<DocVerdict, OutOfMemory>
    ensures { IfOk result (λ verdict. verdict ≡ record { doc_type = (document_seen document.now).doc_type; refused = Some check; elements = []; device_elements = [] }) }
{
    let doc_type = Octets::copy_of(alloc, document.doc_type().as_bytes())?;
    Ok(DocVerdict {
        doc_type,
        refused: Some(check),
        elements: Rows::from_vec(Vec::new(alloc)),
        device_elements: Rows::from_vec(Vec::new(alloc)),
    })
}

/// The verdict on a document.
#[tactic(auto, using(key_device::proofs::PlanStepLemmas::mapped_exits, key_device::proofs::PlanLemmas::halted, key_device::proofs::GaveLemmas::gave_exits), unfolding(verdict_model::specs::Documents::judged_document))]
fn judged_document<D: KeyDevice>(
    alloc: Global,
    setting: &JudgeContext<'_>,
    document: &ResponseDoc<'_>,
    device: &mut Recorder<D>,
) -> Result<DocVerdict, JudgeFault>
    ensures asked { Follows (judged_document (setting_seen setting.now) (document_seen document.now)) (talk device.old) (talk device.new) (came_to result) }
    ensures gave { Gave D.gives D.unasked D.faults device.old device.new }
    ensures cause { HasCause Device Memory (D.faults (inner device.old)) (D.faults (inner device.new)) result }
{
    match document_checks(alloc, setting, document, device) {
        Ok(it) => match accepted_document(alloc, setting, document, &it) {
            Ok(verdict) => Ok(verdict),
            Err(_) => Err(JudgeFault::Memory),
        },
        Err(CheckEnd::Refused(check)) => match refused_document(alloc, document, check) {
            Ok(verdict) => Ok(verdict),
            Err(_) => Err(JudgeFault::Memory),
        },
        Err(CheckEnd::Device) => Err(JudgeFault::Device),
        Err(CheckEnd::Memory) => Err(JudgeFault::Memory),
    }
}

/// The verdicts on documents, in order.
pub(crate) fn judged_documents<D: KeyDevice>(
    alloc: Global,
    setting: &JudgeContext<'_>,
    documents: ResponseDocs<'_>,
    device: &mut Recorder<D>,
) -> Result<Rows<DocVerdict>, JudgeFault>
    ensures asked { Follows (each (judged_document (setting_seen setting.now)) (documents_left documents.entry)) (talk device.old) (talk device.new) (came_to result) }
    ensures gave { Gave D.gives D.unasked D.faults device.old device.new }
    ensures cause { HasCause Device Memory (D.faults (inner device.old)) (D.faults (inner device.new)) result }
{
    let mut judged = Vec::new(alloc);
    for document in documents {
        match judged.reserve(1) {
            Ok(()) => {}
            Err(_) => return Err(JudgeFault::Memory),
        }
        match judged_document(alloc, setting, &document, device) {
            Ok(verdict) => judged.push_reserved(verdict),
            Err(JudgeFault::Device) => return Err(JudgeFault::Device),
            Err(JudgeFault::Memory) => return Err(JudgeFault::Memory),
        }
    }
    Ok(Rows::from_vec(judged))
}

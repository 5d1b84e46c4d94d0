//! The checks of a document, in their order.

ghost use Rattle.std.specs.Prelude.{◌≡◌, IfOk, true};
ghost use Rattle.mdoc_outside.specs.Faults.{HasCause};
ghost use Rattle.doc_response.specs.ResponseDocs.{document_seen};
ghost use Rattle.key_device.specs.Gave.{Counts, Gave};
ghost use Rattle.key_device.specs.Plan.{Follows};
ghost use Rattle.key_device.specs.Recording.{inner, talk};
ghost use Rattle.mso_digests.specs.Digests.{have_length};
ghost use Rattle.mso_digests.specs.MsoView.{object_seen};
ghost use Rattle.verdict_model.specs.Documents.{document_checks};
ghost use Rattle.verdict_model.specs.Elements.{is_type_requested};
ghost use Rattle.reader_checks.specs.Checks.{issued_and_shown};
ghost use Rattle.reader_checks.specs.Views.{setting_seen};
ghost use Rattle.issuer_checks.specs.Ending.{came_to, fails};
ghost use Rattle.issuer_checks.specs.Views.{issued_seen};
ghost use Rattle.issuer_checks.specs.declared.check_end.CheckEnd.TheVariants.{Device, Memory};

use crate::judge_context::JudgeContext;
use crate::shown::shown;
use doc_request::RequestDraft;
use doc_response::ResponseDoc;
use issuer_checks::{CheckEnd, IssuerStatement, issuer_says};
use key_device::{KeyDevice, Recorder};
use std::alloc::Global;
use verdict_model::DocCheck;

/// Whether a request asks for a document of that type.
fn is_type_requested(request: &RequestDraft, doc_type: &str) -> bool
    ensures { result ≡ is_type_requested request.now doc_type.now }
{
    for asked in request.documents.as_slice() {
        if asked.doc_type.as_slice() == doc_type.as_bytes() {
            return true;
        }
    }
    false
}

/// What the issuer says of a document that its device shows.
#[tactic(auto, using(key_device::proofs::PlanLemmas::exits, key_device::proofs::GaveLemmas::gave_exits))]
fn issued_and_shown<'a, D: KeyDevice>(
    alloc: Global,
    setting: &JudgeContext<'_>,
    document: &ResponseDoc<'a>,
    device: &mut Recorder<D>,
) -> Result<IssuerStatement<'a>, CheckEnd>
    ensures asked { Follows (issued_and_shown (setting_seen setting.now) (document_seen document.now)) (talk device.old) (talk device.new) (came_to issued_seen result) }
    ensures lengths { IfOk result (λ it. have_length (object_seen it.object).digests ≡ true) }
    ensures gave { Gave D.gives D.unasked D.faults device.old device.new }
    ensures counts { Counts (fails result) (D.faults (inner device.old)) (D.faults (inner device.new)) }
{
    let it = match issuer_says(
        alloc,
        &setting.trust,
        document.doc_type(),
        document.issuer_auth(),
        device,
    ) {
        Ok(it) => it,
        Err(stop) => return Err(stop),
    };
    match shown(alloc, &setting.session, &it.key, document, device) {
        Ok(()) => Ok(it),
        Err(stop) => Err(stop),
    }
}

/// What the issuer says of a document that is accepted, else why its checks end (ISO/IEC 18013-5, 9.3.1). `CheckEnd::Device` is
/// answered exactly where the device's count of faults rose.
#[tactic(auto, using(key_device::proofs::PlanLemmas::exits, key_device::proofs::GaveLemmas::gave_exits), unfolding(verdict_model::specs::Documents::document_checks))]
pub fn document_checks<'a, D: KeyDevice>(
    alloc: Global,
    setting: &JudgeContext<'_>,
    document: &ResponseDoc<'a>,
    device: &mut Recorder<D>,
) -> Result<IssuerStatement<'a>, CheckEnd>
    ensures asked { Follows (document_checks (setting_seen setting.now) (document_seen document.now)) (talk device.old) (talk device.new) (came_to issued_seen result) }
    ensures lengths { IfOk result (λ it. have_length (object_seen it.object).digests ≡ true) }
    ensures gave { Gave D.gives D.unasked D.faults device.old device.new }
    ensures cause { HasCause Device Memory (D.faults (inner device.old)) (D.faults (inner device.new)) result }
    ensures counts { Counts (fails result) (D.faults (inner device.old)) (D.faults (inner device.new)) }
{
    if !is_type_requested(setting.request, document.doc_type()) {
        return Err(CheckEnd::Refused(DocCheck::DocNotRequested));
    }
    issued_and_shown(alloc, setting, document, device)
}

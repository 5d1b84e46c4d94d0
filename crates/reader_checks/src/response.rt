//! The judge.

ghost use Rattle.std.specs.Prelude.{◌≡◌};
ghost use Rattle.mdoc_outside.specs.Faults.{HasCause};
ghost use Rattle.doc_response.specs.ResponseRead.{response_seen};
ghost use Rattle.key_device.specs.Gave.{Gave};
ghost use Rattle.key_device.specs.Plan.{Follows};
ghost use Rattle.key_device.specs.Recording.{inner, talk};
ghost use Rattle.verdict_model.specs.Verdict.{verdict};
ghost use Rattle.reader_checks.specs.Ending.{came_to};
ghost use Rattle.reader_checks.specs.declared.judge_fault.JudgeFault.TheVariants.{Device, Memory};

use crate::JudgeFault;
use crate::answered::unanswered;
use crate::documents::judged_documents;
use crate::judge_context::{JudgeContext, SessionBinding};
use cert_view::Roots;
use doc_request::RequestDraft;
use doc_response::Response;
use issuer_checks::TrustedRoots;
use key_device::{KeyDevice, Recorder};
use std::alloc::Global;
use verdict_model::Verdict;

/// What a reader believes of a response (ISO/IEC 18013-5, 9.1.2, 9.1.3 and 9.3.1): by the request that it answers, the bytes
/// of the session's transcript, the number of the reader's ephemeral key, the trusted roots, and the moment in
/// seconds since 1970. It refuses where the device fails, and for want of memory.
pub fn judge<E: KeyDevice>(
    alloc: Global,
    request: &RequestDraft,
    transcript: &[u8],
    key: u32,
    response: &Response<'_>,
    roots: &Roots,
    moment: i64,
    device: &mut Recorder<E>,
) -> Result<Verdict, JudgeFault>
    ensures asked { Follows (verdict (record { request = request.now; session = record { transcript = transcript.now; key = key }; roots = roots.now; moment = moment }) (response_seen response.now).documents) (talk device.old) (talk device.new) (came_to result) }
    ensures gave { Gave E.gives E.unasked E.faults device.old device.new }
    ensures cause { HasCause Device Memory (E.faults (inner device.old)) (E.faults (inner device.new)) result }
{
    let session = SessionBinding { transcript, key };
    let trust = TrustedRoots {
        roots: roots.list(),
        moment,
    };
    let setting = JudgeContext {
        request,
        session,
        trust,
    };
    let documents = match judged_documents(alloc, &setting, response.documents(), device) {
        Ok(documents) => documents,
        Err(JudgeFault::Device) => return Err(JudgeFault::Device),
        Err(JudgeFault::Memory) => return Err(JudgeFault::Memory),
    };
    match unanswered(alloc, request, documents.as_slice()) {
        Ok(unanswered) => Ok(Verdict {
            documents,
            unanswered,
        }),
        Err(_) => Err(JudgeFault::Memory),
    }
}

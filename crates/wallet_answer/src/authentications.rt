//! The device's authentications of the documents of which something is released.

ghost use Rattle.std.specs.Prelude.{◌≡◌, IfOk, length, map};
ghost use Rattle.key_device.specs.Ends.{came_to};
ghost use Rattle.key_device.specs.Gave.{Gave};
ghost use Rattle.key_device.specs.Plan.{Follows};
ghost use Rattle.key_device.specs.PlanSteps.{each};
ghost use Rattle.key_device.specs.Recording.{talk};
ghost use Rattle.key_device.specs.declared.device_fault.DeviceFault.TheVariants.{Failed};
ghost use Rattle.wallet_answer.specs.Authenticated.{authenticated_choice};
ghost use Rattle.wallet_answer.specs.ChoiceView.{choice_seen};
ghost use Rattle.wallet_model.specs.Answer.{authenticated, document_with};
ghost use Rattle.wallet_answer.specs.Documents.{documents_with};

use crate::authentication::device_auth;
use crate::released_document::ReleasedDocument;
use doc_response::DeviceAuth;
use key_device::{DeviceFault, KeyDevice, Recorder};
use session_seal::WalletAsked;
use std::alloc::Global;

/// The device's authentication of a document (ISO/IEC 18013-5, 9.1.3.4), with which it is a part of the response.
#[tactic(auto, using(key_device::proofs::PlanLemmas::exits), unfolding(wallet_model::specs::Answer::authenticated))]
fn authenticate<D: KeyDevice>(
    alloc: Global,
    session: &WalletAsked,
    choice: &ReleasedDocument<'_>,
    device: &mut Recorder<D>,
) -> Result<DeviceAuth, DeviceFault>
    ensures asked { Follows (authenticated session.now (choice_seen choice.now)) (talk device.old) (talk device.new) (came_to Failed (document_with (choice_seen choice.now)) result) }
    ensures gave { Gave D.gives D.unasked D.faults device.old device.new }
{
    match device_auth(alloc, session, choice, device) {
        Ok(auth) => Ok(auth),
        Err(DeviceFault::Failed) => Err(DeviceFault::Failed),
        Err(DeviceFault::Memory) => Err(DeviceFault::Memory),
    }
}

/// The device's authentications of documents, in order, up to the first for which it fails.
#[tactic(auto, using(key_device::proofs::PlanStepLemmas::each_exits, key_device::proofs::GaveLemmas::gave_exits))]
pub(crate) fn authenticate_all<D: KeyDevice>(
    alloc: Global,
    session: &WalletAsked,
    choices: &[ReleasedDocument<'_>],
    device: &mut Recorder<D>,
) -> Result<Vec<DeviceAuth>, DeviceFault>
    ensures asked { Follows (each (authenticated_choice session.now) choices.now) (talk device.old) (talk device.new) (came_to Failed (λ v. documents_with (map choice_seen choices.now) v.items) result) }
    ensures each { IfOk result (λ v. length v.items ≡ length choices.now) }
    ensures gave { Gave D.gives D.unasked D.faults device.old device.new }
{
    let mut auths = Vec::new(alloc);
    for choice in choices {
        auths.reserve(1)?;
        match authenticate(alloc, session, choice, device) {
            Ok(auth) => auths.push_reserved(auth),
            Err(DeviceFault::Failed) => return Err(DeviceFault::Failed),
            Err(DeviceFault::Memory) => return Err(DeviceFault::Memory),
        }
    }
    Ok(auths)
}

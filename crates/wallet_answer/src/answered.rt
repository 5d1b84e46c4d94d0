//! An answer.

ghost use Rattle.std.specs.Prelude.{◌≡◌, ◌≤◌, IfOk, length, map};
ghost use Rattle.std.specs.List.{AllByRecursion};
ghost use Rattle.wallet_answer.specs.Places.{places_in};
ghost use Rattle.wallet_answer.specs.ChoiceView.{choice_seen};
ghost use Rattle.wallet_answer.specs.Texts.{name_seen};
ghost use Rattle.wallet_model.specs.Answer.{status_response, without_items};
ghost use Rattle.wallet_answer.specs.Documents.{IsSound, response_of};

use crate::places::released_places;
use crate::release::Release;
use crate::responses::{full_response, status_response};
use doc_response::DeviceAuth;
use mdoc_outside::{Memory, Octets};
use std::alloc::Global;
use wallet_model::ReleasedAt;

/// The status general error (ISO/IEC 18013-5, table 8).
pub(crate) const GENERAL_ERROR: u64 = 10;

/// The answer to a text that was opened.
#[derive(Drop)]
pub struct Answer {
    /// The response (DeviceResponse; ISO/IEC 18013-5, 8.3.2.1.2.2), at most 1,048,000 bytes.
    pub text: Octets,
    /// The places of the items that count as released, in the order asked.
    pub places: Vec<ReleasedAt>,
}

impl Answer {
    ghost use Rattle.wallet_answer.specs.AnswerView.{answer_seen};

    /// A response of a status alone, for which nothing is released.
    pub(crate) fn without_items(alloc: Global, status: u64) -> Result<Answer, Memory>
        ensures { IfOk result (λ a. answer_seen a ≡ without_items status) }
    {
        let text = status_response(alloc, status)?;
        let places = Vec::new(alloc);
        Ok(Answer { text, places })
    }

    /// The response of what is released, by the device's authentications of the documents in their order.
    pub(crate) fn full(
        alloc: Global,
        selected: Release<'_>,
        auths: &[DeviceAuth],
    ) -> Result<Answer, Memory>
        requires sound { AllByRecursion IsSound (map choice_seen selected.choices.items) }
        requires each { length auths.now ≡ length selected.choices.items }
        ensures text { IfOk result (λ a. a.text ≡ response_of (map choice_seen selected.entry.choices.items) auths.now (map name_seen selected.entry.nothing.items)) }
        ensures places { IfOk result (λ a. a.places.items ≡ places_in (map choice_seen selected.entry.choices.items)) }
    {
        let text = full_response(alloc, &selected, auths)?;
        let Release { choices, .. } = selected;
        let places = released_places(alloc, choices)?;
        Ok(Answer { text, places })
    }

    /// A general error in place of that response, where the device failed.
    pub(crate) fn refused(alloc: Global, selected: Release<'_>) -> Result<Answer, Memory>
        ensures text { IfOk result (λ a. a.text ≡ status_response 10) }
        ensures places { IfOk result (λ a. a.places.items ≡ places_in (map choice_seen selected.entry.choices.items)) }
    {
        let text = status_response(alloc, GENERAL_ERROR)?;
        let Release { choices, .. } = selected;
        let places = released_places(alloc, choices)?;
        Ok(Answer { text, places })
    }
}

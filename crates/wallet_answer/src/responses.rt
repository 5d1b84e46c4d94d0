//! The bytes of a response.

ghost use Rattle.std.specs.Prelude.{◌≡◌, IfOk, length, map};
ghost use Rattle.std.specs.List.{AllByRecursion};
ghost use Rattle.wallet_answer.specs.ChoiceView.{choice_seen};
ghost use Rattle.wallet_answer.specs.Texts.{name_seen};
ghost use Rattle.wallet_model.specs.Answer.{status_response, within_limit};
ghost use Rattle.wallet_answer.specs.Documents.{IsSound, response_of};

use crate::documents::{put_documents, put_nothing};
use crate::release::Release;
use doc_response::{DeviceAuth, ResponseDraft, respond};
use mdoc_outside::{Memory, Octets};
use std::alloc::Global;

/// The most bytes of a response.
const MOST_BYTES: usize = 1_048_000;

/// The statuses OK and general error (ISO/IEC 18013-5, table 8).
const OK: u64 = 0;

const GENERAL_ERROR: u64 = 10;

/// A response of a status alone.
pub fn status_response(alloc: Global, status: u64) -> Result<Octets, Memory>
    ensures { IfOk result (λ b. b ≡ status_response status) }
{
    let draft = ResponseDraft::new(alloc, status);
    respond(alloc, &draft)
}

/// A response within the limit of its length, else a general error.
fn within_limit(alloc: Global, response: Octets) -> Result<Octets, Memory>
    ensures { IfOk result (λ b. b ≡ within_limit response) }
{
    if response.as_slice().len() <= MOST_BYTES {
        Ok(response)
    } else {
        status_response(alloc, GENERAL_ERROR)
    }
}

/// The response of what is released, by the device's authentications of the documents in their order; one that is
/// longer than 1,048,000 bytes gives way to a general error.
pub fn full_response(
    alloc: Global,
    selected: &Release<'_>,
    auths: &[DeviceAuth],
) -> Result<Octets, Memory>
    requires sound { AllByRecursion IsSound (map choice_seen selected.now.choices.items) }
    requires each { length auths.now ≡ length selected.now.choices.items }
    ensures { IfOk result (λ b. b ≡ response_of (map choice_seen selected.now.choices.items) auths.now (map name_seen selected.now.nothing.items)) }
{
    let mut draft = ResponseDraft::new(alloc, OK);
    put_documents(&mut draft, &selected.choices, auths)?;
    put_nothing(&mut draft, &selected.nothing)?;
    let response = respond(alloc, &draft)?;
    within_limit(alloc, response)
}

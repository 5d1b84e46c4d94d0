//! The answer to a text that was opened.

ghost use Rattle.std.specs.Prelude.{◌≡◌, IfOk, Ok, length, map, true};
ghost use Rattle.std.specs.List.{AllByRecursion};
ghost use Rattle.cbor_view.specs.Parts.{cbor};
ghost use Rattle.cbor_view.specs.View.{part};
ghost use Rattle.doc_request.specs.Asked.{Document};
ghost use Rattle.doc_request.specs.Draft.{are_distinct};
ghost use Rattle.doc_request.specs.Views.{document_seen, documents_of};
ghost use Rattle.key_device.specs.Gave.{Gave};
ghost use Rattle.key_device.specs.Plan.{Follows};
ghost use Rattle.key_device.specs.Recording.{talk};
ghost use Rattle.wallet_answer.specs.AnswerView.{answer_of};
ghost use Rattle.wallet_answer.specs.ChoiceView.{choice_seen};
ghost use Rattle.wallet_answer.specs.SetupView.{setup_of};
ghost use Rattle.wallet_answer.specs.Texts.{name_seen, reader_seen};
ghost use Rattle.wallet_model.specs.Answer.{answer, answer_request, answer_selections};
ghost use Rattle.wallet_model.specs.Released.{choices, selections, types_of_nothing};
ghost use Rattle.wallet_answer.specs.Documents.{IsSound};

use crate::Answer;
use crate::answered::GENERAL_ERROR;
use crate::authentications::authenticate_all;
use crate::nesting::parts_are_nested;
use crate::readers::known_readers;
use crate::release::{Release, release_documents};
use crate::setup::WalletSetup;
use cbor_view::View;
use doc_request::{DocAsk, Request};
use key_device::{DeviceFault, KeyDevice, Recorder};
use mdoc_outside::Memory;
use session_seal::WalletAsked;
use std::alloc::Global;

/// The statuses CBOR decoding error and CBOR validation error (ISO/IEC 18013-5, table 8).
const DECODING_ERROR: u64 = 11;

const VALIDATION_ERROR: u64 = 12;

/// The documents of a request, in their order.
fn documents_in<'a>(alloc: Global, request: &Request<'a>) -> Result<Vec<DocAsk<'a>>, Memory>
    ensures { IfOk result (λ v. map document_seen v.items ≡ documents_of request.now) }
{
    let mut documents = Vec::new(alloc);
    for document in request.documents() {
        documents.push(document)?;
    }
    Ok(documents)
}

/// What is released of the documents: a response has room for each issuer's signature, since the file of a store leaves less.
#[tactic(auto, using(crate::proofs::Nested::sound_selected))]
fn select_sound<'a>(
    alloc: Global,
    setup: &WalletSetup<'a>,
    documents: &[DocAsk<'a>],
    readers: &[Option<&str>],
) -> Result<Release<'a>, Memory>
    requires each { length readers.now ≡ length documents.now }
    requires distinct { AllByRecursion (λ (document : Document). are_distinct document.wishes ≡ true) (map document_seen documents.now) }
    ensures choices { IfOk result (λ s. map choice_seen s.choices.items ≡ choices (selections (setup_of setup.now) (map document_seen documents.now) (map reader_seen readers.now))) }
    ensures nothing { IfOk result (λ s. map name_seen s.nothing.items ≡ types_of_nothing (selections (setup_of setup.now) (map document_seen documents.now) (map reader_seen readers.now))) }
    ensures sound { IfOk result (λ s. AllByRecursion IsSound (map choice_seen s.choices.items)) }
{
    parts_are_nested(setup.store);
    release_documents(alloc, setup, documents, readers)
}

/// The answer to a request whose readers are known.
#[tactic(auto, using(key_device::proofs::GaveLemmas::gave_exits, key_device::proofs::PlanLemmas::unasked))]
fn answer_documents<'a, D: KeyDevice>(
    alloc: Global,
    setup: &WalletSetup<'a>,
    session: &WalletAsked,
    documents: &[DocAsk<'a>],
    readers: &[Option<&str>],
    device: &mut Recorder<D>,
) -> Result<Answer, Memory>
    requires each { length readers.now ≡ length documents.now }
    requires distinct { AllByRecursion (λ (document : Document). are_distinct document.wishes ≡ true) (map document_seen documents.now) }
    ensures asked { Follows (answer_selections session.now (selections (setup_of setup.now) (map document_seen documents.now) (map reader_seen readers.now))) (talk device.old) (talk device.new) (answer_of result) }
    ensures gave { Gave D.gives D.unasked D.faults device.old device.new }
{
    let selected = select_sound(alloc, setup, documents, readers)?;
    match authenticate_all(alloc, session, &selected.choices, device) {
        Ok(auths) => Answer::full(alloc, selected, &auths),
        Err(DeviceFault::Failed) => Answer::refused(alloc, selected),
        Err(DeviceFault::Memory) => Err(Memory),
    }
}

/// The answer to a request: first who asks for each of its documents.
#[tactic(auto, using(key_device::proofs::GaveLemmas::gave_exits, key_device::proofs::PlanLemmas::unasked))]
fn answer_request<D: KeyDevice>(
    alloc: Global,
    setup: &WalletSetup<'_>,
    session: &WalletAsked,
    request: &Request<'_>,
    device: &mut Recorder<D>,
) -> Result<Answer, Memory>
    requires { AllByRecursion (λ (document : Document). are_distinct document.wishes ≡ true) (documents_of request.now) }
    ensures asked { Follows (answer_request (setup_of setup.now) session.now (documents_of request.now)) (talk device.old) (talk device.new) (answer_of result) }
    ensures gave { Gave D.gives D.unasked D.faults device.old device.new }
{
    let documents = documents_in(alloc, request)?;
    match known_readers(
        alloc,
        setup.readers,
        setup.moment,
        session.transcript(),
        &documents,
        device,
    ) {
        Ok(readers) => answer_documents(alloc, setup, session, &documents, &readers, device),
        Err(DeviceFault::Failed) => Answer::without_items(alloc, GENERAL_ERROR),
        Err(DeviceFault::Memory) => Err(Memory),
    }
}

/// The answer to an item of CBOR, which is the text.
#[tactic(auto, using(key_device::proofs::GaveLemmas::gave_exits))]
fn answer_item<D: KeyDevice>(
    alloc: Global,
    setup: &WalletSetup<'_>,
    session: &WalletAsked,
    text: &[u8],
    item: View<'_>,
    device: &mut Recorder<D>,
) -> Result<Answer, Memory>
    requires { cbor text.now ≡ Ok (part item) }
    ensures asked { Follows (answer (setup_of setup.now) session.now text.now) (talk device.old) (talk device.new) (answer_of result) }
    ensures gave { Gave D.gives D.unasked D.faults device.old device.new }
{
    match Request::read(item) {
        Ok(request) => answer_request(alloc, setup, session, &request, device),
        Err(_) => Answer::without_items(alloc, VALIDATION_ERROR),
    }
}

/// The answer to a text that was opened in a session (ISO/IEC 18013-5, 8.3.2.1.2). A text that isn't CBOR is answered by
/// status 11, and one that is and is no request by status 12 (table 8). Else the device is asked who asks for each
/// document, and then for the authentication of each of which something is released; where it fails, the answer has
/// status 10.
#[tactic(auto, using(key_device::proofs::GaveLemmas::gave_exits))]
pub fn answer<D: KeyDevice>(
    alloc: Global,
    setup: &WalletSetup<'_>,
    session: &WalletAsked,
    text: &[u8],
    device: &mut Recorder<D>,
) -> Result<Answer, Memory>
    ensures asked { Follows (answer (setup_of setup.now) session.now text.now) (talk device.old) (talk device.new) (answer_of result) }
    ensures gave { Gave D.gives D.unasked D.faults device.old device.new }
{
    match View::read(text) {
        Ok(item) => answer_item(alloc, setup, session, text, item, device),
        Err(_) => Answer::without_items(alloc, DECODING_ERROR),
    }
}

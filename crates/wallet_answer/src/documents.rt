//! The documents of a response.

ghost use Rattle.std.specs.Prelude.{◌≡◌, OnOk, length, map};
ghost use Rattle.std.specs.List.{AllByRecursion};
ghost use Rattle.wallet_answer.specs.ChoiceView.{choice_seen};
ghost use Rattle.wallet_answer.specs.Texts.{name_seen};
ghost use Rattle.wallet_answer.specs.Documents.{IsSound, documents_with, with_documents, with_types};
ghost use Rattle.wallet_answer.specs.Documents.{part_of_choice, with_part};

use crate::released_document::ReleasedDocument;
use doc_response::{DeviceAuth, ResponseDraft};
use mdoc_outside::Memory;

/// Adds the document of a choice, with the device's authentication.
pub(crate) fn put_document<'a>(
    draft: &mut ResponseDraft<'a>,
    choice: &ReleasedDocument<'a>,
    auth: DeviceAuth,
) -> Result<(), Memory>
    requires { IsSound (choice_seen choice.now) }
    ensures { OnOk result (draft.new ≡ with_part (part_of_choice (choice_seen choice.now) auth choice.now.answered.items choice.now.answered.missing) draft.old) }
{
    draft.document(choice.answered.doc_type(), choice.issuer_auth, auth)?;
    let items = choice.answered.items();
    for item in items {
        draft.item(item.ns, item.raw)?;
    }
    let missing = choice.answered.missing_elements();
    for element in missing {
        draft.missing(element.ns, element.name)?;
    }
    Ok(())
}

/// Adds the documents of choices, each with its authentication.

pub(crate) fn put_documents<'a>(
    draft: &mut ResponseDraft<'a>,
    choices: &[ReleasedDocument<'a>],
    auths: &[DeviceAuth],
) -> Result<(), Memory>
    requires sound { AllByRecursion IsSound (map choice_seen choices.now) }
    requires each { length auths.now ≡ length choices.now }
    ensures { OnOk result (draft.new ≡ with_documents (documents_with (map choice_seen choices.now) auths.now) draft.old) }
{
    for place in 0..choices.len() {
        put_document(draft, &choices[place], auths[place])?;
    }
    Ok(())
}

/// Adds the types of the documents of which nothing is released.
pub(crate) fn put_nothing<'a>(
    draft: &mut ResponseDraft<'a>,
    types: &[&'a str],
) -> Result<(), Memory>
    ensures { OnOk result (draft.new ≡ with_types (map name_seen types.now) draft.old) }
{
    for doc_type in types {
        draft.nothing(doc_type)?;
    }
    Ok(())
}

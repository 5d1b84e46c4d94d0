//! What is released of each document that is asked for.

ghost use Rattle.std.specs.Prelude.{◌≡◌, [], ◌++◌, IfOk, OnOk, map, length, option_map};
ghost use Rattle.std.specs.List.{cons_option};
ghost use Rattle.doc_request.specs.Views.{document_seen};
ghost use Rattle.wallet_answer.specs.ChoiceView.{choice_seen};
ghost use Rattle.wallet_answer.specs.Texts.{name_seen, reader_seen};
ghost use Rattle.wallet_answer.specs.SetupView.{setup_of};
ghost use Rattle.wallet_answer.specs.Selecting.{if_nothing};
ghost use Rattle.wallet_model.specs.Released.{choices, selections, types_of_nothing};

use crate::choosing::choice;
use crate::released_document::ReleasedDocument;
use crate::setup::WalletSetup;
use doc_request::DocAsk;
use mdoc_outside::Memory;
use std::alloc::Global;

/// The documents of which something is released, and the types of those of which nothing is, each in the order asked.
#[derive(Drop)]
pub struct Release<'a> {
    /// The documents of which something is released.
    pub choices: Vec<ReleasedDocument<'a>>,
    /// The types of the documents of which nothing is released.
    pub nothing: Vec<&'a str>,
}

impl<'a> Release<'a> {
    /// A document more, of which this is released.
    fn add(&mut self, doc_type: &'a str, found: Option<ReleasedDocument<'a>>) -> Result<(), Memory>
        ensures choices { OnOk result (map choice_seen self.new.choices.items ≡ map choice_seen self.old.choices.items ++ cons_option (option_map choice_seen found.entry) []) }
        ensures nothing { OnOk result (map name_seen self.new.nothing.items ≡ map name_seen self.old.nothing.items ++ if_nothing (option_map choice_seen found.entry) doc_type.now []) }
    {
        match found {
            Some(choice) => self.choices.push(choice)?,
            None => self.nothing.push(doc_type)?,
        }
        Ok(())
    }
}

/// What is released of each document that is asked for to its reader.
pub fn release_documents<'a>(
    alloc: Global,
    setup: &WalletSetup<'a>,
    documents: &[DocAsk<'a>],
    readers: &[Option<&str>],
) -> Result<Release<'a>, Memory>
    requires { length readers.now ≡ length documents.now }
    ensures choices { IfOk result (λ s. map choice_seen s.choices.items ≡ choices (selections (setup_of setup.now) (map document_seen documents.now) (map reader_seen readers.now))) }
    ensures nothing { IfOk result (λ s. map name_seen s.nothing.items ≡ types_of_nothing (selections (setup_of setup.now) (map document_seen documents.now) (map reader_seen readers.now))) }
{
    let mut selected = Release {
        choices: Vec::new(alloc),
        nothing: Vec::new(alloc),
    };
    for place in 0..documents.len() {
        let document = &documents[place];
        let found = choice(alloc, setup, readers[place], document)?;
        selected.add(document.doc_type(), found)?;
    }
    Ok(selected)
}

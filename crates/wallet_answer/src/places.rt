//! The places of the items that are released.

ghost use Rattle.std.specs.Prelude.{◌≡◌, ◌++◌, IfOk, OnOk, map};
ghost use Rattle.wallet_answer.specs.Places.{places_in};
ghost use Rattle.wallet_answer.specs.ChoiceView.{choice_seen};

use crate::released_document::ReleasedDocument;
use mdoc_outside::Memory;
use std::alloc::Global;
use wallet_model::ReleasedAt;

/// Adds places after others, in their order.
pub fn append_released(places: &mut Vec<ReleasedAt>, more: Vec<ReleasedAt>) -> Result<(), Memory>
    ensures { OnOk result (places.new.items ≡ places.old.items ++ more.items) }
{
    for place in more {
        places.push(place)?;
    }
    Ok(())
}

/// The places of all that is released of documents, in their order.
pub(crate) fn released_places(
    alloc: Global,
    choices: Vec<ReleasedDocument<'_>>,
) -> Result<Vec<ReleasedAt>, Memory>
    ensures { IfOk result (λ places. places.items ≡ places_in (map choice_seen choices.entry.items)) }
{
    let mut places = Vec::new(alloc);
    for choice in choices {
        let ReleasedDocument { places: own, .. } = choice;
        append_released(&mut places, own)?;
    }
    Ok(places)
}

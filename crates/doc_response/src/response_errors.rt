//! The errors of documents of which nothing is returned.

ghost use Rattle.std.specs.Prelude.{◌≡◌, ◌∷◌, true, is_some};
ghost use Rattle.std.specs.Iterator.{YieldsFirstBy, item_count};
ghost use Rattle.cbor_view.specs.Pairs.{pairs_left};
ghost use Rattle.cbor_view.specs.View.{part};
ghost use Rattle.doc_response.specs.ResponseParts.{error_of, errors_in};
ghost use Rattle.doc_response.specs.ResponseView.{are_error_maps, are_errors, error_or_none, errors_in_or_none, errors_of, items_or_none, pairs_or_none};

use crate::response_items::{first_item, first_pair};
use cbor_view::{Items, Pairs, View};

/// The errors of document types in their order, each with its code, an integer.
#[derive(Clone, Copy)]
pub struct ResponseErrors<'a> {
    pub(crate) errors: Option<Pairs<'a>>,
    pub(crate) maps: Option<Items<'a>>,
    ghost spelled: { are_errors (pairs_or_none errors) ≡ true },
    ghost maps_spelled: { are_error_maps (items_or_none maps) ≡ true },
}

impl<'a> Iterator for ResponseErrors<'a> {
    ghost use Rattle.doc_response.specs.ResponseErrors.{error_seen, errors_left};

    type Item = (&'a str, View<'a>);

    ghost next_gives = { YieldsFirstBy error_seen errors_left };

    ghost remaining = { item_count errors_left };

    #[tactic(auto, using(crate::proofs::Each::each_first, crate::proofs::Each::each_rest, crate::proofs::Each::each_value))]
    fn next(&mut self) -> Option<(&'a str, View<'a>)> {
        let mut errors = self.errors;
        let mut maps = self.maps;
        'maps: loop {
            match first_pair(errors) {
                Some((name, code, rest)) => {
                    let doc_type = error_name(&name, &code);
                    let errors = Some(rest);
                    *self = ResponseErrors { errors, maps };
                    return Some((doc_type, code));
                }
                None => {}
            }
            match first_item(maps) {
                Some((map, rest)) => {
                    errors = Some(open_errors(&map));
                    maps = Some(rest);
                }
                None => {
                    let errors = None;
                    *self = ResponseErrors { errors, maps };
                    return None;
                }
            }
        }
    }
}

/// What an error is of.
fn error_name<'a>(name: &View<'a>, code: &View<'a>) -> &'a str
    requires { is_some (error_of (part name.now, part code.now)) ≡ true }
    ensures { error_or_none (part name.now, part code.now) ≡ (result.now, part code.now) }
{
    match name.text() {
        Some(name) => name,
        None => unreachable!(),
    }
}

/// The errors of a map.
fn open_errors<'a>(map: &View<'a>) -> Pairs<'a>
    requires { is_some (errors_in (part map.now)) ≡ true }
    ensures errors { are_errors (pairs_left result) ≡ true }
    ensures listed { errors_of (pairs_left result) ≡ errors_in_or_none (part map.now) }
{
    match map.pairs() {
        Some(errors) => errors,
        None => unreachable!(),
    }
}

//! The elements that a document is asked for.

ghost use Rattle.std.specs.Prelude.{◌≡◌, [], ◌∷◌, MatchOption, filter_map};
ghost use Rattle.std.specs.Iterator.{YieldsFirstBy, item_count};
ghost use Rattle.cbor_view.specs.Pairs.{pairs_left};
ghost use Rattle.cbor_view.specs.View.{part};
ghost use Rattle.doc_request.specs.Spaces.{element, in_space};
ghost use Rattle.doc_request.specs.Views.{element_seen, names_left};

use crate::element::Element;
use cbor_view::{Pairs, View};

/// The elements that a document is asked for, in the order of the bytes.
#[derive(Clone, Copy)]
pub struct Elements<'a> {
    pub(crate) ns: &'a str,
    pub(crate) names: Option<Pairs<'a>>,
    pub(crate) spaces: Pairs<'a>,
}

impl<'a> Iterator for Elements<'a> {
    ghost use Rattle.doc_request.specs.Views.{element_seen, elements_left};

    type Item = Element<'a>;

    ghost next_gives = { YieldsFirstBy element_seen elements_left };

    ghost remaining = { item_count elements_left };

    fn next(&mut self) -> Option<Element<'a>> {
        let mut ns = self.ns;
        let mut names = self.names;
        let mut spaces = self.spaces;
        'spaces: loop {
            match first_element(ns, names) {
                Some((element, rest)) => {
                    let names = Some(rest);
                    *self = Elements { ns, names, spaces };
                    return Some(element);
                }
                None => {}
            }
            match spaces.next() {
                Some((name, map)) => {
                    let (own, opened) = open_space(&name, &map);
                    ns = own;
                    names = opened;
                }
                None => {
                    let names = None;
                    *self = Elements { ns, names, spaces };
                    return None;
                }
            }
        }
    }
}

/// The first element of a namespace, and the entries after it.
fn first_element<'a>(ns: &'a str, names: Option<Pairs<'a>>) -> Option<(Element<'a>, Pairs<'a>)>
    ensures { MatchOption result (filter_map (element ns.now) (names_left names.entry) ≡ [])
        (λ r. filter_map (element ns.now) (names_left names.entry) ≡ element_seen r.0 ∷ filter_map (element ns.now) (pairs_left r.1)) }
{
    let mut names = names?;
    while let Some((name, retain)) = names.next() {
        match (name.text(), retain.boolean()) {
            (Some(name), Some(retain)) => return Some((Element { ns, name, retain }, names)),
            _ => {}
        }
    }
    None
}

/// The name of a namespace, and its entries.
fn open_space<'a>(name: &View<'a>, map: &View<'a>) -> (&'a str, Option<Pairs<'a>>)
    ensures { filter_map (element result.0.now) (names_left result.1) ≡ in_space (part name.now, part map.now) }
{
    match name.text() {
        Some(own) => (own, map.pairs()),
        None => ("", None),
    }
}

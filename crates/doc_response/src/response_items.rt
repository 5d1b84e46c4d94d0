//! The items of a document.

ghost use Rattle.std.specs.Prelude.{◌≡◌, true, [], ◌∷◌, MatchOption, is_some};
ghost use Rattle.std.specs.Iterator.{YieldsFirstBy, item_count};
ghost use Rattle.cbor_view.specs.Items.{left};
ghost use Rattle.cbor_view.specs.Pairs.{pairs_left};
ghost use Rattle.cbor_view.specs.View.{both_parts, part};
ghost use Rattle.doc_response.specs.Response.{spread};
ghost use Rattle.doc_response.specs.ResponseParts.{namespace};
ghost use Rattle.doc_response.specs.ResponseView.{are_namespaces, beside, items_or_none, namespace_or_none, pairs_or_none};

use cbor_view::{Items, Pairs, View};

/// The items of a document in their order, each with its namespace.
#[derive(Clone, Copy)]
pub struct ResponseItems<'a> {
    pub(crate) ns: &'a str,
    pub(crate) items: Option<Items<'a>>,
    pub(crate) namespaces: Option<Pairs<'a>>,
    ghost spelled: { are_namespaces (pairs_or_none namespaces) ≡ true },
}

impl<'a> Iterator for ResponseItems<'a> {
    ghost use Rattle.doc_response.specs.ResponseItems.{items_left, item_seen};

    type Item = (&'a str, View<'a>);

    ghost next_gives = { YieldsFirstBy item_seen items_left };

    ghost remaining = { item_count items_left };

    #[tactic(auto, using(crate::proofs::Each::each_first, crate::proofs::Each::each_rest, crate::proofs::Each::each_value))]
    fn next(&mut self) -> Option<(&'a str, View<'a>)> {
        let mut ns = self.ns;
        let mut items = self.items;
        let mut namespaces = self.namespaces;
        'namespaces: loop {
            match first_item(items) {
                Some((item, rest)) => {
                    let items = Some(rest);
                    *self = ResponseItems {
                        ns,
                        items,
                        namespaces,
                    };
                    return Some((ns, item));
                }
                None => {}
            }
            match first_pair(namespaces) {
                Some((name, list, rest)) => {
                    let (own, opened) = open_namespace(&name, &list);
                    ns = own;
                    items = Some(opened);
                    namespaces = Some(rest);
                }
                None => {
                    let items = None;
                    *self = ResponseItems {
                        ns,
                        items,
                        namespaces,
                    };
                    return None;
                }
            }
        }
    }
}

/// The first item, and those after it.
pub(crate) fn first_item<'a>(items: Option<Items<'a>>) -> Option<(View<'a>, Items<'a>)>
    ensures { MatchOption result (items_or_none items.entry ≡ []) (λ r. items_or_none items.entry ≡ part r.0 ∷ left r.1) }
{
    let mut items = items?;
    let first = items.next()?;
    Some((first, items))
}

/// The first pair, and those after it.
pub(crate) fn first_pair<'a>(pairs: Option<Pairs<'a>>) -> Option<(View<'a>, View<'a>, Pairs<'a>)>
    ensures { MatchOption result (pairs_or_none pairs.entry ≡ []) (λ r. pairs_or_none pairs.entry ≡ both_parts (r.0, r.1) ∷ pairs_left r.2) }
{
    let mut pairs = pairs?;
    let (key, value) = pairs.next()?;
    Some((key, value, pairs))
}

/// A namespace with its items.
fn open_namespace<'a>(name: &View<'a>, list: &View<'a>) -> (&'a str, Items<'a>)
    requires { is_some (namespace (part name.now, part list.now)) ≡ true }
    ensures { beside result.0.now (left result.1) ≡ spread (namespace_or_none (part name.now, part list.now)) }
{
    match (name.text(), list.items()) {
        (Some(own), Some(items)) => (own, items),
        _ => unreachable!(),
    }
}

//! The items of a copy in their order.

ghost use Rattle.std.specs.Prelude.{◌≡◌, true, [], ◌∷◌, MatchOption, is_some};
ghost use Rattle.std.specs.Iterator.{YieldsFirstBy, item_count};
ghost use Rattle.cbor_view.specs.Items.{left};
ghost use Rattle.cbor_view.specs.Pairs.{pairs_left};
ghost use Rattle.cbor_view.specs.View.{part};
ghost use Rattle.mdoc_outside.specs.OptionSteps.{each};
ghost use Rattle.doc_store.specs.HeldItem.{no_space};
ghost use Rattle.doc_store.specs.SpaceItems.{beside, parts_of};
ghost use Rattle.doc_store.specs.Parts.{value_or};
ghost use Rattle.doc_store.specs.Store.{namespace, spread};

use cbor_view::{Items, Pairs, View};

/// The items of a copy, each as its namespace and its bytes as they are stored, in the order of the
/// store.
#[derive(Clone, Copy)]
pub struct CopyItems<'a> {
    pub(crate) ns: &'a str,
    pub(crate) items: Option<Items<'a>>,
    pub(crate) spaces: Pairs<'a>,
    ghost spelled: { is_some (each namespace (pairs_left spaces)) ≡ true },
}

impl<'a> Iterator for CopyItems<'a> {
    ghost use Rattle.doc_store.specs.CopyItems.{copy_items_left};

    type Item = (&'a str, &'a [u8]);

    ghost next_gives = { YieldsFirstBy (λ e. (e.0.now, e.1.now)) copy_items_left };

    ghost remaining = { item_count copy_items_left };

    fn next(&mut self) -> Option<(&'a str, &'a [u8])> {
        let mut ns = self.ns;
        let mut items = self.items;
        let mut spaces = self.spaces;
        'spaces: loop {
            match first_of(items) {
                Some((stored, rest)) => {
                    let items = Some(rest);
                    *self = CopyItems { ns, items, spaces };
                    return Some((ns, stored.raw()));
                }
                None => {}
            }
            match spaces.next() {
                Some((name, list)) => {
                    let (own, inside) = open_space(&name, &list);
                    ns = own;
                    items = Some(inside);
                }
                None => {
                    let items = None;
                    *self = CopyItems { ns, items, spaces };
                    return None;
                }
            }
        }
    }
}

/// The first item, and those after it.
fn first_of<'a>(items: Option<Items<'a>>) -> Option<(View<'a>, Items<'a>)>
    ensures { MatchOption result (parts_of items.entry ≡ [])
        (λ r. parts_of items.entry ≡ part r.0 ∷ left r.1) }
{
    let mut items = items?;
    let first = items.next()?;
    Some((first, items))
}

/// The name of a namespace, and its items.
#[tactic(auto, using(crate::proofs::HeldItems::beside_parts))]
fn open_space<'a>(name: &View<'a>, list: &View<'a>) -> (&'a str, Items<'a>)
    requires { is_some (namespace (part name.now, part list.now)) ≡ true }
    ensures { beside result.0.now (left result.1)
        ≡ spread (value_or no_space namespace (part name.now, part list.now)) }
{
    match (name.text(), list.items()) {
        (Some(own), Some(items)) => (own, items),
        _ => unreachable!(),
    }
}

//! The items of an array that need not be whole.

ghost use Rattle.std.specs.Prelude.{◌≡◌, ◌<◌, ◌∷◌};
ghost use Rattle.std.specs.Iterator.{YieldsFirstBy, item_count};

use crate::partial_view::PartialView;

/// The items of an array, in order, up to the first that isn't whole, that one too.
#[derive(Clone, Copy)]
pub struct PartialItems<'a> {
    pub(crate) front: PartialView<'a>,
    pub(crate) count: u64,
}

impl<'a> PartialItems<'a> {
    ghost use Rattle.cbor_view.specs.PartialView.{partial_item};
    ghost use Rattle.cbor_view.specs.PartialItems.{partial_items_left};

    /// The items after the first. The last one isn't walked over, since none follows it.
    fn others(&self) -> PartialItems<'a>
        requires { 0 < self.now.count }
        ensures { partial_items_left self.now ≡ partial_item self.now.front ∷ partial_items_left result }
    {
        let none = PartialItems {
            front: self.front,
            count: 0,
        };
        if self.count == 1 {
            return none;
        }
        match self.front.following() {
            Some(front) => PartialItems {
                front,
                count: self.count - 1,
            },
            None => none,
        }
    }
}

impl<'a> Iterator for PartialItems<'a> {
    ghost use Rattle.cbor_view.specs.PartialView.{partial_item};
    ghost use Rattle.cbor_view.specs.PartialItems.{partial_items_left};

    type Item = PartialView<'a>;

    ghost next_gives = { YieldsFirstBy partial_item partial_items_left };

    ghost remaining = { item_count partial_items_left };

    #[tactic(auto, using(crate::proofs::PartialFaults::partial_steps))]
    fn next(&mut self) -> Option<PartialView<'a>> {
        if self.count == 0 {
            return None;
        }
        let item = self.front;
        *self = self.others();
        Some(item)
    }
}

//! The pairs of a map that need not be whole.

ghost use Rattle.std.specs.Prelude.{◌≡◌, ◌<◌, ◌∷◌};
ghost use Rattle.std.specs.Iterator.{YieldsFirstBy, item_count};

use crate::partial_view::PartialView;

/// The pairs of a key and its value of a map, in order, up to the first that isn't whole, that one
/// too: it has no value where its key isn't whole.
#[derive(Clone, Copy)]
pub struct PartialPairs<'a> {
    pub(crate) front: PartialView<'a>,
    pub(crate) count: u64,
}

impl<'a> PartialPairs<'a> {
    ghost use Rattle.cbor_view.specs.PartialView.{partial_pair};
    ghost use Rattle.cbor_view.specs.PartialPairs.{partial_pairs_left};

    /// The value of the first, and the pairs after it. The last value isn't walked over,
    /// since none follows it.
    fn others(&self) -> (Option<PartialView<'a>>, PartialPairs<'a>)
        requires { 0 < self.now.count }
        ensures { partial_pairs_left self.now ≡ partial_pair (self.now.front, result.0) ∷ partial_pairs_left result.1 }
    {
        let none = PartialPairs {
            front: self.front,
            count: 0,
        };
        let Some(value) = self.front.following() else {
            return (None, none);
        };
        if self.count == 1 {
            return (Some(value), none);
        }
        match value.following() {
            Some(front) => (
                Some(value),
                PartialPairs {
                    front,
                    count: self.count - 1,
                },
            ),
            None => (Some(value), none),
        }
    }
}

impl<'a> Iterator for PartialPairs<'a> {
    ghost use Rattle.cbor_view.specs.PartialView.{partial_pair};
    ghost use Rattle.cbor_view.specs.PartialPairs.{partial_pairs_left};

    type Item = (PartialView<'a>, Option<PartialView<'a>>);

    ghost next_gives = { YieldsFirstBy partial_pair partial_pairs_left };

    ghost remaining = { item_count partial_pairs_left };

    #[tactic(auto, using(crate::proofs::PartialFaults::partial_steps))]
    fn next(&mut self) -> Option<(PartialView<'a>, Option<PartialView<'a>>)> {
        if self.count == 0 {
            return None;
        }
        let key = self.front;
        let (value, others) = self.others();
        *self = others;
        Some((key, value))
    }
}

//! The pairs of a map.

ghost use Rattle.std.specs.Prelude.{◌≡◌, ◌+◌, ◌<◌, ◌^◌, length, IsTrue};
ghost use Rattle.std.specs.Iterator.{YieldsFirstBy, item_count};
ghost use Rattle.cbor_view.specs.Opening.{are_pairs};

use crate::view::View;

/// The pairs of a key and its value of a map, in order, as views.
#[derive(Clone, Copy)]
pub struct Pairs<'a> {
    pub(crate) rest: &'a [u8],
    pub(crate) count: u64,
    pub(crate) at: usize,
    ghost pairs: { IsTrue (are_pairs count rest.now) },
    ghost in_range: { at + length rest.now < 2 ^ 64 },
}

impl<'a> Iterator for Pairs<'a> {
    ghost use Rattle.cbor_view.specs.View.{both_parts};
    ghost use Rattle.cbor_view.specs.Pairs.{pairs_left};

    type Item = (View<'a>, View<'a>);

    ghost next_gives = { YieldsFirstBy both_parts pairs_left };

    ghost remaining = { item_count pairs_left };

    #[tactic(auto, using(crate::proofs::Stepping::pair_steps))]
    fn next(&mut self) -> Option<(View<'a>, View<'a>)> {
        if self.count == 0 {
            return None;
        }
        let (key, rest) = View::first(self.rest, self.at);
        let at = self.at + key.raw().len();
        let (value, rest) = View::first(rest, at);
        let at = at + value.raw().len();
        *self = Pairs {
            rest,
            count: self.count - 1,
            at,
        };
        Some((key, value))
    }
}

//! The items of an array.

ghost use Rattle.std.specs.Prelude.{◌≡◌, ◌+◌, ◌<◌, ◌^◌, length, IsTrue};
ghost use Rattle.std.specs.Iterator.{YieldsFirstBy, item_count};
ghost use Rattle.cbor_view.specs.Opening.{are_items};

use crate::view::View;

/// The items of an array, in order, as views.
#[derive(Clone, Copy)]
pub struct Items<'a> {
    pub(crate) rest: &'a [u8],
    pub(crate) count: u64,
    pub(crate) at: usize,
    ghost items: { IsTrue (are_items count rest.now) },
    ghost in_range: { at + length rest.now < 2 ^ 64 },
}

impl<'a> Iterator for Items<'a> {
    ghost use Rattle.cbor_view.specs.View.{part};
    ghost use Rattle.cbor_view.specs.Items.{left};

    type Item = View<'a>;

    ghost next_gives = { YieldsFirstBy part left };

    ghost remaining = { item_count left };

    #[tactic(auto, using(crate::proofs::Stepping::item_steps))]
    fn next(&mut self) -> Option<View<'a>> {
        if self.count == 0 {
            return None;
        }
        let (item, rest) = View::first(self.rest, self.at);
        let at = self.at + item.raw().len();
        *self = Items {
            rest,
            count: self.count - 1,
            at,
        };
        Some(item)
    }
}

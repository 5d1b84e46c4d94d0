// The pieces of a message that are left.
ghost use Rattle.std.specs.Prelude.{◌≤◌};

use crate::Piece;

/// The pieces of a message, in order.
#[derive(Clone, Copy)]
pub struct Cuts<'a> {
    pub(crate) rest: &'a [u8],
    pub(crate) size: usize,
    pub(crate) is_done: bool,
    ghost sized: { 1 ≤ size },
}

impl<'a> Iterator for Cuts<'a> {
    ghost use Rattle.std.specs.Iterator.{YieldsFirstBy, item_count};
    ghost use Rattle.ble_fragments.specs.CutsLeft.{cut_of, cuts_left};

    type Item = Piece<'a>;

    ghost next_gives = { YieldsFirstBy cut_of cuts_left };

    ghost remaining = { item_count cuts_left };

    #[tactic(auto, using(crate::proofs::CutPieces::first_piece, crate::proofs::CutPieces::only_piece))]
    fn next(&mut self) -> Option<Piece<'a>> {
        if self.is_done {
            return None;
        }
        let rest = self.rest;
        if rest.len() <= self.size {
            self.is_done = true;
            return Some(Piece {
                bytes: rest,
                is_last: true,
            });
        }
        let (bytes, rest) = rest.split_at(self.size);
        self.rest = rest;
        Some(Piece {
            bytes,
            is_last: false,
        })
    }
}

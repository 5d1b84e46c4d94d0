//! The elements in the body of an element.

ghost use Rattle.std.specs.Prelude.{◌+◌, ◌<◌, ◌^◌, length};
ghost use Rattle.std.specs.Iterator.{YieldsFirstBy, item_count};

use crate::der::Der;
use crate::der_fault::DerFault;

/// The elements that follow one another, in order, each or its fault. It ends after a fault.
#[derive(Clone, Copy)]
pub struct Parts<'a> {
    pub(crate) rest: &'a [u8],
    pub(crate) at: usize,
    ghost in_range: { at + length rest.now < 2 ^ 64 },
}

impl<'a> Iterator for Parts<'a> {
    ghost use Rattle.der_view.specs.Der.{seen};
    ghost use Rattle.der_view.specs.PartsLeft.{left};

    type Item = Result<Der<'a>, DerFault>;

    ghost next_gives = { YieldsFirstBy seen left };

    ghost remaining = { item_count left };

    #[tactic(auto, using(crate::proofs::Listing::part_steps))]
    fn next(&mut self) -> Option<Result<Der<'a>, DerFault>> {
        if self.rest.is_empty() {
            return None;
        }
        match Der::first(self.rest, self.at) {
            Ok((element, rest)) => {
                let at = element.at + element.slice.len();
                *self = Parts { rest, at };
                Some(Ok(element))
            }
            Err(fault) => {
                self.rest = &[];
                Some(Err(fault))
            }
        }
    }
}

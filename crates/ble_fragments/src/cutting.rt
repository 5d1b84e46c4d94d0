// Messages cut into pieces.
ghost use Rattle.std.specs.Prelude.{◌≡◌, ◌≤◌};
ghost use Rattle.ble_fragments.specs.Cut.{cut};
ghost use Rattle.ble_fragments.specs.CutsLeft.{cuts_left};

use crate::Cuts;

/// The pieces of a message for fragments of at most `size` bytes, of which the leading byte is one
/// (ISO/IEC 18013-5, 8.3.3.1.1); one empty piece for the empty message. Takes no memory.
#[tactic(auto, unfolding(crate::specs::Cut::cut))]
pub fn cut(message: &[u8], size: u16) -> Cuts<'_>
    requires { 2 ≤ size }
    ensures { cuts_left result ≡ cut message.now size }
{
    Cuts {
        rest: message,
        size: usize::from(size) - 1,
        is_done: false,
    }
}

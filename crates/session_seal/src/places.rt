//! The IVs of sealed messages.

ghost use Rattle.std.specs.Prelude.{◌≡◌};
ghost use Rattle.session_seal.specs.Places.{iv};

use mdoc_outside::End;

/// The IV of the message at that place of an end's sealed messages (ISO/IEC 18013-5, 9.1.1.5): 8 bytes that say
/// the end, and the place.
#[tactic(auto, unfolding(crate::specs::Places::iv))]
pub(crate) fn iv(end: End, place: u32) -> [u8; 12]
    ensures { result ≡ iv end place }
{
    let identifier = match end {
        End::Reader => 0,
        End::Wallet => 1,
    };
    let [a, b, c, d] = place.to_be_bytes();
    [0, 0, 0, 0, 0, 0, 0, identifier, a, b, c, d]
}

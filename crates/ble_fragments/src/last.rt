//! Fragments that may end a message.

ghost use Rattle.std.specs.Prelude.{◌≡◌};
ghost use Rattle.ble_fragments.specs.Arrivals.{is_last, is_led_by_zero};

use mdoc_outside::Fragment;

/// Whether a fragment may end a message: a data fragment that 0 leads (ISO/IEC 18013-5, 8.3.3.1.1).
pub fn may_end_message(fragment: &Fragment) -> bool
    ensures { result ≡ is_last fragment.now }
{
    match fragment {
        Fragment::Data(bytes) => is_led_by_zero(bytes.as_slice()),
        Fragment::State(_) => false,
    }
}

fn is_led_by_zero(bytes: &[u8]) -> bool
    ensures { result ≡ is_led_by_zero bytes.now }
{
    match bytes {
        [] => false,
        [lead, ..] => *lead == 0,
    }
}

//! Texts of a fixed form, and the numbers that stand in them.

ghost use Rattle.std.specs.Prelude.{◌≡◌, ◌+◌, ◌<◌, ◌≤◌, length};
ghost use Rattle.std.specs.List.{zip, list_all};
ghost use Rattle.mdl_table.specs.Form.{stands_for, has_form, two_at, four_at};

/// Whether a byte is what the form has at its place: a digit where the form has `0`.
fn stands_for(wanted: u8, byte: u8) -> bool
    ensures { result ≡ stands_for wanted byte }
{
    if wanted == b'0' {
        byte.is_ascii_digit()
    } else {
        byte == wanted
    }
}

/// Whether each byte is what the form has at its place, as far as both go.
fn all_stand_for(form: &[u8], text: &[u8]) -> bool
    ensures { result ≡ list_all (λ both. stands_for both.0 both.1) (zip form.now text.now) }
{
    form.iter()
        .zip(text)
        .all(|(wanted, byte)| stands_for(*wanted, *byte))
}

/// Whether a text has a form: its length, a digit for each `0`, and else the form's own bytes.
#[tactic(auto, unfolding(crate::specs::Form::has_form))]
pub fn has_form(form: &[u8], text: &[u8]) -> bool
    ensures { result ≡ has_form form.now text.now }
{
    form.len() == text.len() && all_stand_for(form, text)
}

/// The number of the two digits from a place on.
pub(crate) fn two_at(text: &[u8], place: usize) -> u16
    requires { place + 1 < length text.now }
    ensures value { result ≡ two_at text.now place }
    ensures bound { result ≤ 2277 }
{
    let tens = u16::from(text[place].saturating_sub(b'0'));
    let ones = u16::from(text[place + 1].saturating_sub(b'0'));
    10 * tens + ones
}

/// The number of the four digits from a place on.
pub(crate) fn four_at(text: &[u8], place: usize) -> u32
    requires { place + 3 < length text.now }
    ensures { result ≡ four_at text.now place }
{
    100 * u32::from(two_at(text, place)) + u32::from(two_at(text, place + 2))
}

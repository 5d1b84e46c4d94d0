//! Numbers by the body of an INTEGER (X.690, 8.3).

ghost use Rattle.std.specs.Prelude.{◌≡◌, ◌≤◌, length, option_map};
ghost use Rattle.cert_view.specs.Integers.{after_zero, digits, in_32, number_of};

/// What follows a byte 0 in front: nothing, or a byte whose highest bit is set.
fn after_zero(bytes: &[u8]) -> Option<&[u8]>
    ensures { option_map (λ d. d.now) result ≡ after_zero bytes.now }
{
    match bytes {
        [] => Some(bytes),
        [first, ..] if *first < 0x80 => None,
        _ => Some(bytes),
    }
}

/// The digits to the base 256 of a number that is not negative and has no more bytes than it needs.
fn digits(body: &[u8]) -> Option<&[u8]>
    ensures { option_map (λ d. d.now) result ≡ digits body.now }
{
    match body {
        [] => None,
        [first, rest @ ..] if *first == 0 => after_zero(rest),
        [first, ..] if *first < 0x80 => Some(body),
        _ => None,
    }
}

/// Digits in 32 bytes, where they are no more.
fn in_32(digits: &[u8]) -> Option<[u8; 32]>
    ensures { result ≡ in_32 digits.now }
{
    if digits.len() > 32 {
        return None;
    }
    let mut bytes = [0; 32];
    bytes[32 - digits.len()..].copy_from_slice(digits);
    Some(bytes)
}

/// The 32 bytes of a number below 2^256.
#[tactic(auto, unfolding(crate::specs::Integers::number_of))]
pub(crate) fn number_of(body: &[u8]) -> Option<[u8; 32]>
    ensures { result ≡ number_of body.now }
{
    in_32(digits(body)?)
}

// A fragment of a message.
use crate::Octets;

/// What passes over a link at once (ISO/IEC 18013-5, 8.3.3.1.1): a data fragment, which is a leading
/// byte and a part of a message, or a value written to the characteristic State.
#[derive(Drop)]
pub enum Fragment {
    /// A data fragment, its leading byte included.
    Data(Octets),
    /// A value of State: 1 is the start of a session, 2 its end.
    State(u8),
}

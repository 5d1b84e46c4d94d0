// Why bytes are no device engagement.

use cose_msgs::KeyFault;

/// Why bytes are no device engagement (ISO/IEC 18013-5, 8.2.1.1): the first of these that holds.
#[derive(Clone, Copy, Debug, PartialEq, Eq)]
pub enum EngageFault {
    /// They spell no item of CBOR.
    Cbor,
    /// The map has one of the keys 0, 1 and 2 twice.
    Doubled,
    /// This key is missing, or what is under it is of another form: a text under 0; under 1 an array of
    /// two, a number and tag 24 over the bytes of one item.
    Field(u8),
    /// The version isn't one of edition 1: it doesn't begin with `1.`.
    Version,
    /// The cipher suite isn't 1.
    Suite,
    /// The device key isn't a point of P-256.
    Key(KeyFault),
}

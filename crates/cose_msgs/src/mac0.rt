//! A message authentication code.

ghost use Rattle.std.specs.Prelude.{◌≡◌, IfOk, option_map};
ghost use Rattle.mdoc_outside.specs.Borrowed.{content};
ghost use Rattle.cbor_view.specs.Reading.{Gives};
ghost use Rattle.cbor_view.specs.View.{part};
ghost use Rattle.cose_msgs.specs.Message.{mac0};
ghost use Rattle.cose_msgs.specs.MessageView.{authenticated, AreAuthenticated};

use crate::CoseFault;
use crate::headers::has_algorithm;
use crate::message::Message;
use cbor_view::View;

/// The tag of COSE_Mac0 (RFC 9052, section 2).
const MAC0: u64 = 17;

/// HMAC with SHA-256 and a tag of 256 bits (RFC 9053, section 3.1).
const HMAC_256: i64 = 5;

/// A code of HMAC 256/256 (COSE_Mac0; RFC 9052, section 6.2), borrowed from the bytes that spell it.
#[derive(Clone, Copy)]
pub struct Mac0<'a> {
    protected: &'a [u8],
    payload: Option<&'a [u8]>,
    tag: &'a [u8; 32],
}

impl<'a> Mac0<'a> {
    /// The code that an item is; tag 17 is ignored.
    pub fn read(v: View<'a>) -> Result<Mac0<'a>, CoseFault>
        ensures exact { Gives authenticated result (mac0 (part v.entry)) }
        ensures stands_in { IfOk result (λ m. AreAuthenticated (part v.entry).bytes (authenticated m)) }
    {
        let message = Message::read(v, MAC0)?;
        let header = message.headers()?;
        if !has_algorithm(header, HMAC_256) {
            return Err(CoseFault::Algorithm);
        }
        match message.last.as_array::<32>() {
            Some(tag) => Ok(Mac0 {
                protected: message.protected,
                payload: message.payload,
                tag,
            }),
            None => Err(CoseFault::TagLength),
        }
    }

    /// The protected bytes.
    pub fn protected(&self) -> &'a [u8]
        ensures { result.now ≡ (authenticated self.now).protected }
    {
        self.protected
    }

    /// The payload; none where it is detached.
    pub fn payload(&self) -> Option<&'a [u8]>
        ensures { option_map content result ≡ (authenticated self.now).payload }
    {
        self.payload
    }

    /// The authentication tag.
    pub fn tag(&self) -> &'a [u8; 32]
        ensures { result.now ≡ (authenticated self.now).tag }
    {
        self.tag
    }
}

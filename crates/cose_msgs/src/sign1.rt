//! A signature of one signer.

ghost use Rattle.std.specs.Prelude.{◌≡◌, IfOk, option_map};
ghost use Rattle.mdoc_outside.specs.Borrowed.{content};
ghost use Rattle.cbor_view.specs.Reading.{Gives};
ghost use Rattle.cbor_view.specs.View.{part};
ghost use Rattle.cose_msgs.specs.Message.{sign1};
ghost use Rattle.cose_msgs.specs.MessageView.{signed, AreSigned};

use crate::CoseFault;
use crate::chain::chain_in;
use crate::headers::has_algorithm;
use crate::message::Message;
use cbor_view::View;

/// The tag of COSE_Sign1 (RFC 9052, section 2).
const SIGN1: u64 = 18;

/// ECDSA with SHA-256 (RFC 9053, section 2.1).
const ES256: i64 = -7;

/// A signature of one signer with ES256 (COSE_Sign1; RFC 9052, section 4.2), borrowed from the bytes that
/// spell it.
#[derive(Clone, Copy)]
pub struct Sign1<'a> {
    protected: &'a [u8],
    chain: Option<&'a [u8]>,
    payload: Option<&'a [u8]>,
    signature: &'a [u8; 64],
}

impl<'a> Sign1<'a> {
    /// The signature that an item is; tag 18 is ignored.
    pub fn read(v: View<'a>) -> Result<Sign1<'a>, CoseFault>
        ensures exact { Gives signed result (sign1 (part v.entry)) }
        ensures stands_in { IfOk result (λ s. AreSigned (part v.entry).bytes (signed s)) }
    {
        let message = Message::read(v, SIGN1)?;
        let header = message.headers()?;
        if !has_algorithm(header, ES256) {
            return Err(CoseFault::Algorithm);
        }
        match message.last.as_array::<64>() {
            Some(signature) => Ok(Sign1 {
                protected: message.protected,
                chain: chain_in(message.unprotected),
                payload: message.payload,
                signature,
            }),
            None => Err(CoseFault::SignatureLength),
        }
    }

    /// The protected bytes.
    pub fn protected(&self) -> &'a [u8]
        ensures { result.now ≡ (signed self.now).protected }
    {
        self.protected
    }

    /// The payload; none where it is detached.
    pub fn payload(&self) -> Option<&'a [u8]>
        ensures { option_map content result ≡ (signed self.now).payload }
    {
        self.payload
    }

    /// The signature: r and then s, 32 bytes each.
    pub fn signature(&self) -> &'a [u8; 64]
        ensures { result.now ≡ (signed self.now).signature }
    {
        self.signature
    }

    /// The first certificate of the chain (label 33; RFC 9360, section 2): one string of bytes, or the first
    /// of an array of one or more.
    pub fn chain(&self) -> Option<&'a [u8]>
        ensures { option_map content result ≡ (signed self.now).chain }
    {
        self.chain
    }
}

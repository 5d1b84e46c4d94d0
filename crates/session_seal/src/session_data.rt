//! The message SessionData.

ghost use Rattle.std.specs.Prelude.{◌≡◌, IfOk, IfSome, option_map};
ghost use Rattle.cbor_maps.specs.Contents.{IsPart};
ghost use Rattle.cbor_view.specs.Reading.{Gives};
ghost use Rattle.cbor_view.specs.View.{part};
ghost use Rattle.session_seal.specs.Messages.{data_of_map, session_data};

use cbor_maps::{MapFault, NamedMap};
use cbor_view::View;
use mdoc_outside::KeyName;

/// The message SessionData (ISO/IEC 18013-5, 9.1.1.4), borrowed from the bytes that spell it: a sealed text, a
/// status, or both.
#[derive(Clone, Copy)]
pub struct SessionData<'a> {
    /// The ciphertext of a text and its tag of 16 bytes.
    pub sealed: Option<&'a [u8]>,
    /// The status, with which the session ends.
    pub status: Option<u64>,
}

impl<'a> SessionData<'a> {
    ghost use Rattle.session_seal.specs.MessageView.{fields};

    /// The message that bytes spell, where they spell one. Other keys are ignored.
    #[tactic(auto, unfolding(crate::specs::Messages::session_data))]
    pub fn read(bytes: &'a [u8]) -> Option<SessionData<'a>>
        ensures exact { option_map fields result ≡ session_data bytes.now }
        ensures stands_in { IfSome result (λ m. IfSome (fields m).sealed (IsPart bytes.now)) }
    {
        let Ok(map) = View::read(bytes) else {
            return None;
        };
        match SessionData::of_map(&map) {
            Ok(message) => {
                if message.sealed.is_some() || message.status.is_some() {
                    Some(message)
                } else {
                    None
                }
            }
            Err(_) => None,
        }
    }

    /// The fields of a map.
    fn of_map(map: &View<'a>) -> Result<SessionData<'a>, MapFault>
        ensures exact { Gives fields result (data_of_map (part map.now)) }
        ensures stands_in { IfOk result (λ m. IfSome (fields m).sealed (IsPart (part map.now).bytes)) }
    {
        let map = NamedMap::new(map, &[KeyName::Data, KeyName::Status]);
        map.distinct()?;
        let sealed = map.optional_bytes(KeyName::Data)?;
        let status = map.optional_uint(KeyName::Status)?;
        Ok(SessionData { sealed, status })
    }
}

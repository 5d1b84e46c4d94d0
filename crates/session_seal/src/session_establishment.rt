//! The message SessionEstablishment.

ghost use Rattle.std.specs.Prelude.{◌≡◌, IfOk, IfSome, option_map};
ghost use Rattle.cbor_maps.specs.Contents.{IsPart};
ghost use Rattle.cbor_view.specs.Reading.{Gives};
ghost use Rattle.cbor_view.specs.View.{part};
ghost use Rattle.session_seal.specs.Messages.{establishment, key_and_text};
ghost use Rattle.session_seal.specs.MessageView.{key_and_text_of};

use cbor_maps::{MapFault, NamedMap};
use cbor_view::View;
use cose_msgs::CoseKey;
use key_device::Point;
use mdoc_outside::KeyName;

/// The message SessionEstablishment (ISO/IEC 18013-5, 9.1.1.4), borrowed from the bytes that spell it.
#[derive(Clone, Copy)]
pub struct SessionEstablishment<'a> {
    /// The bytes of the reader's ephemeral key, a COSE_Key.
    pub reader_key: &'a [u8],
    /// The point that the key is.
    pub point: Point,
    /// The ciphertext of a text and its tag of 16 bytes.
    pub sealed: &'a [u8],
}

impl<'a> SessionEstablishment<'a> {
    ghost use Rattle.session_seal.specs.MessageView.{parts};

    /// The message that bytes spell, where they spell one and its key is one of the curve P-256. Other keys of
    /// the map are ignored.
    #[tactic(auto, unfolding(crate::specs::Messages::establishment))]
    pub fn read(bytes: &'a [u8]) -> Option<SessionEstablishment<'a>>
        ensures exact { option_map parts result ≡ establishment bytes.now }
        ensures stands_in { IfSome result (λ m. IsPart bytes.now (parts m).sealed) }
    {
        let Ok(map) = View::read(bytes) else {
            return None;
        };
        let Ok((reader_key, sealed)) = key_and_text(&map) else {
            return None;
        };
        let Ok(key) = View::read(reader_key) else {
            return None;
        };
        match CoseKey::read(key) {
            Ok(key) => Some(SessionEstablishment {
                reader_key,
                point: key.point,
                sealed,
            }),
            Err(_) => None,
        }
    }
}

/// The bytes of the key and the sealed text of a map.
fn key_and_text<'a>(map: &View<'a>) -> Result<(&'a [u8], &'a [u8]), MapFault>
    ensures exact { Gives key_and_text_of result (key_and_text (part map.now)) }
    ensures stands_in { IfOk result (λ fields. IsPart (part map.now).bytes fields.1.now) }
{
    let map = NamedMap::new(map, &[KeyName::EReaderKey, KeyName::Data]);
    map.distinct()?;
    let reader_key = map.encoded(KeyName::EReaderKey)?;
    let sealed = map.bytes(KeyName::Data)?;
    Ok((reader_key, sealed))
}

// What the types of an exchange say: that a line of a tape file can say it.
ghost use Rattle.std.specs.Prelude.{◌≡◌, ◌<◌, ◌^◌, true};
ghost use Rattle.hex.specs.Hex.{IsBytes};
ghost use Rattle.key_device.specs.Tape.{is_exchange};
ghost use Rattle.key_device.specs.HasLine.{IsSized, IsPoint, IsAsked, IsTold, HasLine};

use crate::{Ask, Exchange, Point, Told};

fn is_key(key: u32)
    ensures { key < 2 ^ 32 }
{
    let _key = key;
}

fn is_bytes(bytes: &[u8])
    ensures { IsBytes bytes.now }
{
    let _length = bytes.len();
}

fn is_sized<const N: usize>(bytes: &[u8; N])
    ensures { IsSized N bytes.now }
{
    is_bytes(bytes);
}

fn is_point(point: &Point)
    ensures { IsPoint point.now }
{
    is_sized(&point.x);
    is_sized(&point.y);
}

fn is_asked(ask: &Ask)
    ensures { IsAsked ask.now }
{
    match ask {
        Ask::Fresh => {}
        Ask::Agree(key, peer) => {
            is_key(*key);
            is_point(peer);
        }
        Ask::Sign(key, message) => {
            is_key(*key);
            is_bytes(message.as_slice());
        }
        Ask::Verify(public, message, signature) => {
            is_point(public);
            is_bytes(message.as_slice());
            is_sized(signature);
        }
    }
}

fn is_told(told: &Told)
    ensures { IsTold told.now }
{
    match told {
        Told::Made(made) => {
            is_key(made.key);
            is_point(&made.public);
        }
        Told::Secret(secret) => is_sized(secret),
        Told::Signature(signature) => is_sized(signature),
        Told::Refused | Told::Yes | Told::No | Told::Failed => {}
    }
}

/// Holds no work: the values of an exchange fit the line that says it.
pub(crate) fn has_line(exchange: &Exchange)
    requires { is_exchange exchange.now ≡ true }
    ensures { HasLine exchange.now }
{
    is_asked(&exchange.ask);
    is_told(&exchange.told);
}

// A question of borrowed parts.
ghost use Rattle.std.specs.Prelude.{◌≡◌};
ghost use Rattle.key_device.specs.Question.{asked};
ghost use Rattle.key_device.specs.Tape.{same_ask, same_point};

use crate::{Ask, Point};

// A question to a key device, whose parts are borrowed.
#[derive(Clone, Copy)]
pub(crate) enum Question<'a> {
    Fresh,
    Agree(u32, &'a Point),
    Sign(u32, &'a [u8]),
    Verify(&'a Point, &'a [u8], &'a [u8; 64]),
}

fn same_point(one: &Point, other: &Point) -> bool
    ensures { result ≡ same_point one.now other.now }
{
    one.x[..] == other.x[..] && one.y[..] == other.y[..]
}

// Whether that is the recorded question.
pub(crate) fn is_question(ask: &Ask, question: &Question<'_>) -> bool
    ensures { result ≡ same_ask ask.now (asked question.now) }
{
    match (ask, question) {
        (Ask::Fresh, Question::Fresh) => true,
        (Ask::Agree(key, peer), Question::Agree(asked_key, asked_peer)) => {
            *key == *asked_key && same_point(peer, asked_peer)
        }
        (Ask::Sign(key, message), Question::Sign(asked_key, asked_message)) => {
            *key == *asked_key && message.as_slice() == *asked_message
        }
        (
            Ask::Verify(public, message, signature),
            Question::Verify(asked_public, asked_message, asked_signature),
        ) => {
            same_point(public, asked_public)
                && message.as_slice() == *asked_message
                && signature[..] == asked_signature[..]
        }
        _ => false,
    }
}

// What a fragment is by itself.
ghost use Rattle.std.specs.Prelude.{◌≡◌};
ghost use Rattle.ble_fragments.specs.Part.{Broken, part_of};
ghost use Rattle.ble_fragments.specs.Parts.{part};
ghost use Rattle.ble_fragments.specs.declared.join_fault.JoinFault.TheVariants.{Memory};

use crate::JoinFault;
use mdoc_outside::Fragment;

/// What a fragment is by itself.
#[derive(Clone, Copy)]
pub(crate) enum Part<'a> {
    /// A piece of a message, without the leading byte of its fragment.
    Piece { bytes: &'a [u8], is_last: bool },
    /// The start of a session.
    Start,
    /// The end of a session.
    Stop,
    /// A bad fragment.
    Broken(JoinFault),
}

pub(crate) fn part_of(fragment: &Fragment) -> Part<'_>
    ensures exact { part result ≡ part_of fragment.now }
    ensures flawed { ¬ (part result ≡ Broken Memory) }
{
    match fragment {
        Fragment::Data(bytes) => match bytes.as_slice() {
            [] => Part::Broken(JoinFault::EmptyFragment),
            [0, bytes @ ..] => Part::Piece {
                bytes,
                is_last: true,
            },
            [1, bytes @ ..] => Part::Piece {
                bytes,
                is_last: false,
            },
            [lead, ..] => Part::Broken(JoinFault::BadLead(*lead)),
        },
        Fragment::State(1) => Part::Start,
        Fragment::State(2) => Part::Stop,
        Fragment::State(value) => Part::Broken(JoinFault::BadState(*value)),
    }
}

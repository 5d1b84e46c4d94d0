// Fragments joined to messages.
ghost use Rattle.std.specs.Prelude.{◌≡◌, [], List, IfOk};
ghost use Rattle.mdoc_outside.specs.declared.fragment.Fragment.{Fragment};
ghost use Rattle.ble_fragments.specs.Joins.{Feeds, Joined, Joins, answer_open, is_over, step_open};
ghost use Rattle.ble_fragments.specs.Part.{Broken, Piece};
ghost use Rattle.ble_fragments.specs.declared.ending.Ending.TheVariants.{Open};
ghost use Rattle.ble_fragments.specs.declared.join_fault.JoinFault.TheVariants.{Memory};
ghost use Rattle.ble_fragments.specs.Parts.{part};

use crate::part::{Part, part_of};
use crate::{Ending, Fed, JoinFault};
use mdoc_outside::{Fragment, MOST_FRAGMENTS, MOST_MESSAGE_BYTES, Octets};
use std::alloc::{AllocError, Global};
use std::marker::Model;
use std::mem;

/// Joins fragments, one by one, to messages (ISO/IEC 18013-5, 8.3.3.1.1).
#[derive(Drop)]
pub struct Joiner {
    alloc: Global,
    count: u32,
    bytes: Vec<u8>,
    ending: Ending,
}

impl Model for Joiner {
    ghost Value = { Joined };

    ghost view = { λ j. record { count = j.count; bytes = j.bytes.items; ending = j.ending } };
}

impl Joiner {
    /// A joiner that no fragment was fed to; takes no memory.
    #[tactic(auto, unfolding(crate::specs::Whole::whole))]
    pub fn new(alloc: Global) -> Joiner
        ensures { Joins [] result }
    {
        Joiner {
            alloc,
            count: 0,
            bytes: Vec::new(alloc),
            ending: Ending::Open,
        }
    }

    /// An equal joiner.
    pub fn again(&self) -> Result<Joiner, mdoc_outside::Memory>
        ensures { IfOk result (λ joiner. joiner ≡ self.now) }
    {
        let bytes = self.bytes.as_slice().to_vec(self.alloc)?;
        Ok(Joiner {
            alloc: self.alloc,
            count: self.count,
            bytes,
            ending: self.ending,
        })
    }

    /// Takes a further fragment. After a fault other than want of memory it answers that fault again,
    /// and after the end of the session `Ended`.
    #[tactic(auto, using(crate::proofs::Feeding::fed_open, crate::proofs::Feeding::fed_peer, crate::proofs::Feeding::fed_bad))]
    pub fn feed(&mut self, fragment: &Fragment) -> Result<Fed, JoinFault>
        ensures fed { (came : List Fragment) → Joins came self.old → ¬ (result ≡ Err Memory) → Feeds came fragment.now result self.new }
        ensures memory { result ≡ Err Memory → self.new ≡ self.old }
    {
        match self.ending {
            Ending::Open => self.take(part_of(fragment)),
            Ending::Peer => Ok(Fed::Ended),
            Ending::Bad(fault) => Err(fault),
        }
    }

    // Takes the step of a part while more may follow.
    fn take(&mut self, next: Part<'_>) -> Result<Fed, JoinFault>
        requires open { self.old.ending ≡ Open }
        requires flawed { ¬ (part next ≡ Broken Memory) }
        ensures step { ¬ (result ≡ Err Memory) → self.new ≡ step_open self.old (part next.entry) }
        ensures answer { ¬ (result ≡ Err Memory) → result ≡ answer_open self.old (part next.entry) }
        ensures memory { result ≡ Err Memory → self.new ≡ self.old }
    {
        match next {
            Part::Piece { bytes, is_last } => self.add(bytes, is_last),
            Part::Start => Ok(Fed::Started),
            Part::Stop => {
                self.ending = Ending::Peer;
                Ok(Fed::Ended)
            }
            Part::Broken(fault) => {
                self.ending = Ending::Bad(fault);
                Err(fault)
            }
        }
    }

    // Whether the message would have too many fragments or too many bytes with this piece.
    #[tactic(auto, using(crate::proofs::Limits::over_count, crate::proofs::Limits::over_bytes))]
    fn is_over(&self, piece: &[u8]) -> bool
        ensures { result ≡ is_over self.now piece.now }
    {
        self.count >= MOST_FRAGMENTS
            || self.bytes.len().saturating_add(piece.len()) > MOST_MESSAGE_BYTES
    }

    // Makes room for so many further bytes: twice the room that there was, but for no more than a message may have. So a
    // joiner that grows holds at most twice the bytes of the longest message.
    fn make_room(&mut self, more: usize) -> Result<(), AllocError>
        ensures { self.new ≡ self.old }
    {
        let room = self.bytes.capacity();
        let wanted = self.bytes.len().saturating_add(more);
        if wanted <= room {
            return Ok(());
        }
        let next = room.saturating_mul(2).min(MOST_MESSAGE_BYTES).max(wanted);
        self.bytes.reserve_exact(next - self.bytes.len())
    }

    // Adds a piece to the message that is not whole yet.
    #[tactic(auto, using(crate::proofs::Limits::below_most))]
    fn add(&mut self, piece: &[u8], is_last: bool) -> Result<Fed, JoinFault>
        requires { self.old.ending ≡ Open }
        ensures step { ¬ (result ≡ Err Memory) → self.new ≡ step_open self.old (Piece is_last piece.now) }
        ensures answer { ¬ (result ≡ Err Memory) → result ≡ answer_open self.old (Piece is_last piece.now) }
        ensures memory { result ≡ Err Memory → self.new ≡ self.old }
    {
        if self.is_over(piece) {
            self.ending = Ending::Bad(JoinFault::TooLong);
            return Err(JoinFault::TooLong);
        }
        let Ok(()) = self.make_room(piece.len()) else {
            return Err(JoinFault::Memory);
        };
        let Ok(()) = self.bytes.extend_from_slice(piece) else {
            return Err(JoinFault::Memory);
        };
        if !is_last {
            self.count += 1;
            return Ok(Fed::More);
        }
        self.count = 0;
        let message = mem::replace(&mut self.bytes, Vec::new(self.alloc));
        Ok(Fed::Message(Octets::from_vec(message)))
    }
}

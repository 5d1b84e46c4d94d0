// A device that answers from a tape.
ghost use Rattle.std.specs.Prelude.{◌≡◌, true};
ghost use Rattle.std.specs.List.{list_all};
ghost use Rattle.key_device.specs.Tape.{is_exchange};

use crate::question::{Question, is_question};
use crate::tape_file::read_exchanges;
use crate::{DeviceFault, Exchange, KeyDevice, Made, Point, TapeFault, Told};
use std::alloc::Global;
use std::collections::VecDeque;

/// A key device that answers from a tape: a question that equals the next recorded one gets the
/// recorded answer. A question that differs, and one after the end, fail and leave the place on
/// the tape. It wants no memory to answer.
#[derive(Drop)]
pub struct ReplayDevice {
    tape: VecDeque<Exchange>,
    faults: u64,
    ghost exchanges: { list_all is_exchange tape.items ≡ true },
}

impl ReplayDevice {
    ghost use Rattle.std.specs.Prelude.{◌≤◌, MatchResult, IfOk};
    ghost use Rattle.key_device.specs.Question.{asked};
    ghost use Rattle.key_device.specs.ReplayDevice.{tape_left, fault_count};
    ghost use Rattle.key_device.specs.TapeFile.{tape_of, Refuses};
    ghost use Rattle.key_device.specs.Tape.{answer_of, tape_after, is_answer, count_after, is_next, front_told, behind_front};

    /// A device at the front of the tape that a tape file says. It refuses exactly a file with a
    /// line outside the grammar, by the number of the first such line.
    pub fn read(alloc: Global, tape: &[u8]) -> Result<ReplayDevice, TapeFault>
        ensures read { MatchResult result
            (λ device. tape_of tape.now ≡ Ok (tape_left device)) (Refuses (tape_of tape.now)) }
        ensures faults { IfOk result (λ device. fault_count device ≡ 0) }
    {
        match read_exchanges(alloc, tape) {
            Ok(tape) => Ok(ReplayDevice { tape, faults: 0 }),
            Err(TapeFault::Line(number)) => Err(TapeFault::Line(number)),
            Err(TapeFault::Memory) => Err(TapeFault::Memory),
        }
    }

    // Whether the question is the next one on the tape.
    fn is_next(&self, question: &Question<'_>) -> bool
        ensures { result ≡ is_next (tape_left self.now) (asked question.now) }
    {
        match self.tape.front() {
            Some(next) => is_question(&next.ask, question),
            None => false,
        }
    }

    // Goes past the next exchange.
    fn advance(&mut self) -> Told
        ensures told { result ≡ front_told (tape_left self.old) }
        ensures left { tape_left self.new ≡ behind_front (tape_left self.old) }
        ensures faults { fault_count self.new ≡ fault_count self.old }
    {
        match self.tape.pop_front() {
            Some(next) => next.told,
            None => Told::Failed,
        }
    }

    // What the tape answers.
    fn answer(&mut self, question: &Question<'_>) -> Told
        ensures told { result ≡ answer_of (tape_left self.old) (asked question.now) }
        ensures left { tape_left self.new ≡ tape_after (tape_left self.old) (asked question.now) }
        ensures answer { is_answer (asked question.now) result ≡ true }
        ensures faults { fault_count self.new ≡ count_after result (fault_count self.old) }
        ensures later { fault_count self.old ≤ fault_count self.new }
    {
        let told = if self.is_next(question) {
            self.advance()
        } else {
            Told::Failed
        };
        if let Told::Failed = told {
            self.faults = self.faults.saturating_add(1);
        }
        told
    }
}

impl KeyDevice for ReplayDevice {
    ghost use Rattle.key_device.specs.ReplayDevice.{Replays, fault_count};

    ghost gives = { Replays };

    ghost unasked = { λ _ _. ⊥ };

    ghost faults = { λ d. fault_count d };

    fn fresh(&mut self) -> Result<Made, DeviceFault> {
        match self.answer(&Question::Fresh) {
            Told::Made(made) => Ok(made),
            Told::Failed => Err(DeviceFault::Failed),
            _ => unreachable!(),
        }
    }

    fn agree(&mut self, key: u32, peer: &Point) -> Result<Option<[u8; 32]>, DeviceFault> {
        match self.answer(&Question::Agree(key, peer)) {
            Told::Secret(secret) => Ok(Some(secret)),
            Told::Refused => Ok(None),
            Told::Failed => Err(DeviceFault::Failed),
            _ => unreachable!(),
        }
    }

    fn sign(&mut self, key: u32, message: &[u8]) -> Result<[u8; 64], DeviceFault> {
        match self.answer(&Question::Sign(key, message)) {
            Told::Signature(signature) => Ok(signature),
            Told::Failed => Err(DeviceFault::Failed),
            _ => unreachable!(),
        }
    }

    fn verify(
        &mut self,
        public: &Point,
        message: &[u8],
        signature: &[u8; 64],
    ) -> Result<bool, DeviceFault> {
        match self.answer(&Question::Verify(public, message, signature)) {
            Told::Yes => Ok(true),
            Told::No => Ok(false),
            Told::Failed => Err(DeviceFault::Failed),
            _ => unreachable!(),
        }
    }
}

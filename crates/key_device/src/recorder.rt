// A device that keeps what was asked and told.
ghost use Rattle.std.specs.Prelude.{◌≡◌, ◌≤◌, ◌<◌, ◌++◌, [], ◌∷◌, length, drop, true, All, IfOk, vec_len, vec_capacity};
ghost use Rattle.key_device.specs.HasLineProp.{lines_prop};
ghost use Rattle.key_device.specs.Tape.{is_exchange};
ghost use Rattle.key_device.specs.HasLine.{HasLine};

use crate::has_line::has_line;
use crate::tape_text::tape_text;
use crate::{Ask, DeviceFault, Exchange, KeyDevice, Made, Point, Told};
use mdoc_outside::{Memory, Octets};
use std::alloc::Global;

/// A key device that asks the one it wraps, and keeps each question with what was told.
#[derive(Drop)]
pub struct Recorder<D> {
    device: D,
    talk: Vec<Exchange>,
    alloc: Global,
    ghost lines: { All HasLine talk.items } by { lines_prop talk.items },
}

// Adds an exchange, for which there is room.
#[tactic(auto, using(crate::proofs::WrittenTapes::one_more_line))]
fn keep(talk: &mut Vec<Exchange>, exchange: Exchange)
    requires room { vec_len talk.old < vec_capacity talk.old }
    requires lines { All HasLine talk.old.items }
    requires kind { is_exchange exchange ≡ true }
    ensures added { talk.new.items ≡ talk.old.items ++ exchange ∷ [] }
    ensures lines { All HasLine talk.new.items }
{
    has_line(&exchange);
    talk.push_reserved(exchange);
}

impl<D> Recorder<D> {
    ghost use Rattle.key_device.specs.Recording.{talk, inner};
    ghost use Rattle.key_device.specs.TapeFile.{tape_of};
    ghost use Rattle.key_device.specs.TapeText.{tape_text};

    /// A recorder round a device, with an empty talk.
    pub fn new(alloc: Global, device: D) -> Recorder<D>
        ensures talk { talk result ≡ [] }
        ensures device { inner result ≡ device }
    {
        Recorder {
            device,
            talk: Vec::new(alloc),
            alloc,
        }
    }

    /// What was asked and told so far, each of which a line of a tape file can say.
    pub fn talk(&self) -> &[Exchange]
        ensures talk { result.now ≡ talk self.now }
        ensures lines { All HasLine result.now }
    {
        &self.talk
    }

    /// The tape file of the exchanges from that place on, which is read as these. It refuses for
    /// want of memory alone.
    pub fn tape(&self, from: usize) -> Result<Octets, Memory>
        requires { from ≤ length (talk self.now) }
        ensures text { IfOk result (λ tape. tape ≡ tape_text (drop from (talk self.now))) }
        ensures read { IfOk result (λ tape. tape_of tape ≡ Ok (drop from (talk self.now))) }
    {
        Ok(Octets::from_vec(tape_text(self.alloc, &self.talk[from..])?))
    }
}

impl<D: KeyDevice> KeyDevice for Recorder<D> {
    ghost use Rattle.mdoc_outside.specs.Faults.{HasCause};
    ghost use Rattle.key_device.specs.Asking.{Meets, told_by_fresh, told_by_agree, told_by_sign, told_by_verify};
    ghost use Rattle.key_device.specs.Gave.{Gave};
    ghost use Rattle.key_device.specs.Recording.{inner, Records, IsSameTalk};
    ghost use Rattle.key_device.specs.declared.ask.Ask.TheVariants as asks;
    ghost use Rattle.key_device.specs.declared.device_fault.DeviceFault.TheVariants as faults;

    ghost gives = { Records D.gives };

    ghost unasked = { IsSameTalk D.unasked };

    ghost faults = { λ r. D.faults (inner r) };

    // The trait's clauses, and that the device that was wrapped gave what was told.
    #[tactic(auto, using(crate::proofs::GaveLemmas::leaf_exits))]
    fn fresh(&mut self) -> Result<Made, DeviceFault>
        ensures gives { Meets (Records D.gives) (IsSameTalk D.unasked) self.old (asks.Fresh)
            (told_by_fresh result) self.new }
        ensures cause { HasCause faults.Failed faults.Memory (D.faults (inner self.old))
            (D.faults (inner self.new)) result }
        ensures gave { Gave D.gives D.unasked D.faults self.old self.new }
    {
        self.talk.reserve(1)?;
        let answer = self.device.fresh();
        let told = match answer {
            Ok(made) => Told::Made(made),
            Err(DeviceFault::Failed) => Told::Failed,
            Err(DeviceFault::Memory) => return Err(DeviceFault::Memory),
        };
        keep(
            &mut self.talk,
            Exchange {
                ask: Ask::Fresh,
                told,
            },
        );
        answer
    }

    #[tactic(auto, using(crate::proofs::GaveLemmas::leaf_exits))]
    fn agree(&mut self, key: u32, peer: &Point) -> Result<Option<[u8; 32]>, DeviceFault>
        ensures gives { Meets (Records D.gives) (IsSameTalk D.unasked) self.old (asks.Agree key peer.now)
            (told_by_agree result) self.new }
        ensures cause { HasCause faults.Failed faults.Memory (D.faults (inner self.old))
            (D.faults (inner self.new)) result }
        ensures gave { Gave D.gives D.unasked D.faults self.old self.new }
    {
        self.talk.reserve(1)?;
        let answer = self.device.agree(key, peer);
        let told = match answer {
            Ok(Some(secret)) => Told::Secret(secret),
            Ok(None) => Told::Refused,
            Err(DeviceFault::Failed) => Told::Failed,
            Err(DeviceFault::Memory) => return Err(DeviceFault::Memory),
        };
        keep(
            &mut self.talk,
            Exchange {
                ask: Ask::Agree(key, *peer),
                told,
            },
        );
        answer
    }

    #[tactic(auto, using(crate::proofs::GaveLemmas::leaf_exits))]
    fn sign(&mut self, key: u32, message: &[u8]) -> Result<[u8; 64], DeviceFault>
        ensures gives { Meets (Records D.gives) (IsSameTalk D.unasked) self.old (asks.Sign key message.now)
            (told_by_sign result) self.new }
        ensures cause { HasCause faults.Failed faults.Memory (D.faults (inner self.old))
            (D.faults (inner self.new)) result }
        ensures gave { Gave D.gives D.unasked D.faults self.old self.new }
    {
        self.talk.reserve(1)?;
        let kept = Octets::copy_of(self.alloc, message)?;
        let answer = self.device.sign(key, message);
        let told = match answer {
            Ok(signature) => Told::Signature(signature),
            Err(DeviceFault::Failed) => Told::Failed,
            Err(DeviceFault::Memory) => return Err(DeviceFault::Memory),
        };
        keep(
            &mut self.talk,
            Exchange {
                ask: Ask::Sign(key, kept),
                told,
            },
        );
        answer
    }

    #[tactic(auto, using(crate::proofs::GaveLemmas::leaf_exits))]
    fn verify(
        &mut self,
        public: &Point,
        message: &[u8],
        signature: &[u8; 64],
    ) -> Result<bool, DeviceFault>
        ensures gives { Meets (Records D.gives) (IsSameTalk D.unasked) self.old (asks.Verify public.now message.now signature.now)
            (told_by_verify result) self.new }
        ensures cause { HasCause faults.Failed faults.Memory (D.faults (inner self.old))
            (D.faults (inner self.new)) result }
        ensures gave { Gave D.gives D.unasked D.faults self.old self.new }
    {
        self.talk.reserve(1)?;
        let kept = Octets::copy_of(self.alloc, message)?;
        let answer = self.device.verify(public, message, signature);
        let told = match answer {
            Ok(true) => Told::Yes,
            Ok(false) => Told::No,
            Err(DeviceFault::Failed) => Told::Failed,
            Err(DeviceFault::Memory) => return Err(DeviceFault::Memory),
        };
        keep(
            &mut self.talk,
            Exchange {
                ask: Ask::Verify(*public, kept, *signature),
                told,
            },
        );
        answer
    }
}

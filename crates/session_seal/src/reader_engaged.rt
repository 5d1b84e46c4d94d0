//! The reader before the ends agree on their keys.

ghost use Rattle.std.specs.Prelude.{◌≡◌, IfOk};
ghost use Rattle.cose_msgs.specs.Transcript.{transcript};
ghost use Rattle.cose_msgs.specs.Written.{key_bytes};
ghost use Rattle.key_device.specs.Gave.{Gave};
ghost use Rattle.key_device.specs.Plan.{Follows};
ghost use Rattle.key_device.specs.Recording.{talk};
ghost use Rattle.session_seal.specs.Keys.{keys, salt};
ghost use Rattle.session_seal.specs.Reader.{reader_agrees};
ghost use Rattle.session_seal.specs.Stopping.{Keeps, came_to};

use crate::reader_session::ReaderSession;
use crate::session_keys::{SessionKeys, salt};
use crate::{ReaderEnd, ReaderEnded, ReaderReady, Stop};
use cose_msgs::{write_key, write_transcript};
use key_device::{DeviceFault, KeyDevice, Made, Point, Recorder};
use mdoc_outside::{Memory, Octets};
use std::alloc::Global;
use std::marker::Model;

/// A reader that has read an engagement, and made its own ephemeral key.
#[derive(Drop)]
pub struct ReaderEngaged {
    engagement: Octets,
    handover: Octets,
    peer: Point,
    made: Made,
}

impl Model for ReaderEngaged {
    ghost use Rattle.session_seal.specs.Reader.{ReaderStart};

    ghost Value = { ReaderStart };

    ghost view = { λ s. record { engagement = s.engagement; handover = s.handover; peer = s.peer; made = s.made } };
}

/// What the reader makes ready before it asks its device, so that nothing after the question takes memory.
#[derive(Drop)]
struct Preparation {
    reader_key: Octets,
    transcript: Octets,
    salt: [u8; 32],
}

impl Preparation {
    /// The state with the keys of a secret.
    fn ready(self, secret: &[u8; 32]) -> ReaderReady
        requires { self.salt ≡ salt self.transcript }
        ensures { result ≡ record { session = record { transcript = self.transcript; keys = keys secret.now self.transcript; place = 1 }; reader_key = self.reader_key } }
    {
        let Preparation {
            reader_key,
            transcript,
            salt,
        } = self;
        let session = ReaderSession {
            transcript,
            keys: SessionKeys::new(secret, &salt),
            place: 1,
        };
        ReaderReady::of(session, reader_key)
    }
}

impl ReaderEngaged {
    /// A reader with the bytes of DeviceEngagement and Handover, the wallet's ephemeral key, and its own. It takes
    /// no memory.
    pub fn new(engagement: Octets, handover: Octets, peer: Point, made: Made) -> ReaderEngaged
        ensures { result ≡ record { engagement = engagement; handover = handover; peer = peer; made = made } }
    {
        ReaderEngaged {
            engagement,
            handover,
            peer,
            made,
        }
    }

    /// The place, among the reader's messages, of the one that is sealed next: the first.
    pub fn place(&self) -> u32
        ensures { result ≡ 1 }
    {
        1
    }

    /// What is made ready before the device is asked.
    fn preparation(&self, alloc: Global) -> Result<Preparation, Memory>
        ensures reader_key { IfOk result (λ p. p.reader_key ≡ key_bytes self.now.made.public) }
        ensures transcript { IfOk result (λ p. p.transcript ≡ transcript self.now.engagement (key_bytes self.now.made.public) self.now.handover) }
        ensures salt { IfOk result (λ p. p.salt ≡ salt p.transcript) }
    {
        let reader_key = write_key(alloc, &self.made.public)?;
        let transcript = write_transcript(
            alloc,
            self.engagement.as_slice(),
            reader_key.as_slice(),
            self.handover.as_slice(),
        )?;
        let salt = salt(alloc, transcript.as_slice())?;
        Ok(Preparation {
            reader_key,
            transcript,
            salt,
        })
    }

    /// Asks the device for the secret, of which the session's keys are derived (ISO/IEC 18013-5, 9.1.1.5). Where
    /// it fails or refuses the wallet's key, the session ends.
    #[tactic(auto, using(key_device::proofs::PlanLemmas::exits, key_device::proofs::GaveLemmas::gave_exits), unfolding(crate::specs::Reader::reader_agrees))]
    pub fn agree<E: KeyDevice>(
        self,
        alloc: Global,
        device: &mut Recorder<E>,
    ) -> Result<ReaderReady, Stop<ReaderEngaged, ReaderEnded>>
        ensures asked { Follows (reader_agrees self) (talk device.old) (talk device.new) (came_to result) }
        ensures kept { Keeps self (talk device.old) (talk device.new) result }
        ensures gave { Gave E.gives E.unasked E.faults device.old device.new }
    {
        let Ok(preparation) = self.preparation(alloc) else {
            return Err(Stop::Back(self));
        };
        match device.agree(self.made.key, &self.peer) {
            Ok(Some(secret)) => Ok(preparation.ready(&secret)),
            Ok(None) => Err(Stop::Ended(ReaderEnded::silent(ReaderEnd::PointRefused))),
            Err(DeviceFault::Failed) => Err(Stop::Ended(ReaderEnded::silent(ReaderEnd::Device))),
            Err(DeviceFault::Memory) => Err(Stop::Back(self)),
        }
    }
}

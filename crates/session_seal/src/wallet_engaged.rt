//! The wallet before the first message.

ghost use Rattle.std.specs.Prelude.{◌≡◌, ◌≤◌, ◌^◌, length, IfOk, Some};
ghost use Rattle.key_device.specs.Gave.{Gave};
ghost use Rattle.key_device.specs.Plan.{Follows};
ghost use Rattle.key_device.specs.Recording.{talk};
ghost use Rattle.cose_msgs.specs.Transcript.{transcript};
ghost use Rattle.session_seal.specs.Keys.{salt};
ghost use Rattle.session_seal.specs.MessageView.{parts};
ghost use Rattle.session_seal.specs.Stopping.{Keeps, came_to};
ghost use Rattle.session_seal.specs.Wallet.{wallet_establishes};

use crate::first_message::FirstMessage;
use crate::sealed_data::SealedData;
use crate::session_keys::salt;
use crate::{SessionEstablishment, Stop, WalletAsked, WalletEnded};
use cose_msgs::write_transcript;
use key_device::{DeviceFault, KeyDevice, Recorder};
use mdoc_outside::{Memory, Octets};
use std::alloc::Global;
use std::marker::Model;

/// A wallet that has handed over its engagement, and waits for the first message.
#[derive(Drop)]
pub struct WalletEngaged {
    engagement: Octets,
    handover: Octets,
    key: u32,
}

impl Model for WalletEngaged {
    ghost use Rattle.session_seal.specs.Wallet.{WalletStart};

    ghost Value = { WalletStart };

    ghost view = { λ s. record { engagement = s.engagement; handover = s.handover; key = s.key } };
}

impl WalletEngaged {
    /// A wallet with the bytes of DeviceEngagement and Handover, and the number of its ephemeral key within the
    /// device. It takes no memory.
    pub fn new(engagement: Octets, handover: Octets, key: u32) -> WalletEngaged
        ensures { result ≡ record { engagement = engagement; handover = handover; key = key } }
    {
        WalletEngaged {
            engagement,
            handover,
            key,
        }
    }

    /// The place, among the reader's messages, of the one that is opened next: the first.
    pub fn place(&self) -> u32
        ensures { result ≡ 1 }
    {
        1
    }

    /// What is made ready of the first message before the device is asked.
    fn first_message(
        &self,
        alloc: Global,
        message: &SessionEstablishment<'_>,
    ) -> Result<FirstMessage, Memory>
        ensures transcript { IfOk result (λ f. f.transcript ≡ transcript self.now.engagement (parts message.now).reader_key self.now.handover) }
        ensures salt { IfOk result (λ f. f.salt ≡ salt f.transcript) }
        ensures reader_key { IfOk result (λ f. f.reader_key ≡ (parts message.now).point) }
        ensures sealed { IfOk result (λ f. f.sealed ≡ (parts message.now).sealed) }
    {
        let transcript = write_transcript(
            alloc,
            self.engagement.as_slice(),
            message.reader_key,
            self.handover.as_slice(),
        )?;
        let salt = salt(alloc, transcript.as_slice())?;
        let sealed = SealedData::copy_of(alloc, message.sealed)?;
        Ok(FirstMessage {
            transcript,
            salt,
            reader_key: message.point,
            sealed,
        })
    }

    /// Opens the reader's first message, SessionEstablishment (ISO/IEC 18013-5, 9.1.1.4). One outside its form
    /// ends the session with status 11. Else the device is asked for the secret; where it fails or refuses the
    /// reader's key, the session ends with status 10, and so it does where the text doesn't open.
    #[tactic(auto, using(key_device::proofs::PlanLemmas::exits, key_device::proofs::GaveLemmas::gave_exits), unfolding(crate::specs::Wallet::wallet_establishes))]
    pub fn establish<D: KeyDevice>(
        self,
        alloc: Global,
        message: &[u8],
        device: &mut Recorder<D>,
    ) -> Result<(WalletAsked, Octets), Stop<WalletEngaged, WalletEnded>>
        requires { length message.now ≤ 2 ^ 24 }
        ensures asked { Follows (wallet_establishes self message.now) (talk device.old) (talk device.new) (came_to result) }
        ensures kept { Keeps self (talk device.old) (talk device.new) result }
        ensures gave { Gave D.gives D.unasked D.faults device.old device.new }
    {
        let Some(message) = SessionEstablishment::read(message) else {
            return Err(Stop::Ended(WalletEnded::form()));
        };
        let Ok(first) = self.first_message(alloc, &message) else {
            return Err(Stop::Back(self));
        };
        match device.agree(self.key, &message.point) {
            Ok(Some(secret)) => match first.open(&secret) {
                Ok((session, text)) => Ok((WalletAsked::of(session), text)),
                Err(ended) => Err(Stop::Ended(ended)),
            },
            Ok(None) => Err(Stop::Ended(WalletEnded::refused())),
            Err(DeviceFault::Failed) => Err(Stop::Ended(WalletEnded::refused())),
            Err(DeviceFault::Memory) => Err(Stop::Back(self)),
        }
    }
}

// A device that holds keys.
ghost use Rattle.std.specs.Prelude.{ℕ};
ghost use Rattle.mdoc_outside.specs.Faults.{HasCause};
ghost use Rattle.key_device.specs.Asking.{Meets, told_by_fresh, told_by_agree, told_by_sign, told_by_verify};
ghost use Rattle.key_device.specs.declared.ask.Ask.{Ask};
ghost use Rattle.key_device.specs.declared.told.Told.{Told};
ghost use Rattle.key_device.specs.declared.device_fault.DeviceFault.TheVariants.{Failed, Memory};
ghost use Rattle.key_device.specs.declared.ask.Ask.TheVariants.{Fresh, Agree, Sign, Verify};

use crate::{DeviceFault, Made, Point};

/// A device that holds private keys of the curve P-256, which never leave it, and knows them by
/// number. A call that wants memory may have changed the device as `unasked` says.
pub trait KeyDevice {
    /// When a device in the first state may tell this in answer to that question, and be in the
    /// second state then.
    ghost gives: { Self → Ask → Told → Self → Type 0 };

    /// What a call that answers want of memory leaves of the device.
    ghost unasked: { Self → Self → Type 0 };

    /// How often it has failed, a number that never falls.
    ghost faults: { Self → ℕ };

    /// Makes a key.
    fn fresh(&mut self) -> Result<Made, DeviceFault>
        ensures gives { Meets gives unasked self.old Fresh (told_by_fresh result) self.new }
        ensures cause { HasCause Failed Memory (faults self.old) (faults self.new) result };

    /// The secret that the key of that number and the peer's public key agree on, ECDH (ISO/IEC
    /// 18013-5, section 9.1.1.4); `None` where the device refuses the peer's key.
    fn agree(&mut self, key: u32, peer: &Point) -> Result<Option<[u8; 32]>, DeviceFault>
        ensures gives { Meets gives unasked self.old (Agree key peer.now)
            (told_by_agree result) self.new }
        ensures cause { HasCause Failed Memory (faults self.old) (faults self.new) result };

    /// The signature of the message under the key of that number, ECDSA with SHA-256 (RFC 9053,
    /// section 2.1): r then s, 32 bytes each.
    fn sign(&mut self, key: u32, message: &[u8]) -> Result<[u8; 64], DeviceFault>
        ensures gives { Meets gives unasked self.old (Sign key message.now)
            (told_by_sign result) self.new }
        ensures cause { HasCause Failed Memory (faults self.old) (faults self.new) result };

    /// Whether that is the public key's signature of the message (RFC 9053, section 2.1).
    fn verify(
        &mut self,
        public: &Point,
        message: &[u8],
        signature: &[u8; 64],
    ) -> Result<bool, DeviceFault>
        ensures gives { Meets gives unasked self.old (Verify public.now message.now signature.now)
            (told_by_verify result) self.new }
        ensures cause { HasCause Failed Memory (faults self.old) (faults self.new) result };
}

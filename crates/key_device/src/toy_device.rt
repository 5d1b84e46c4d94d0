// A device of formulas over digests, for tests and examples.
ghost use Rattle.std.specs.Prelude.{◌≡◌, Some};

use crate::toy_formulas::{is_refused, toy_point, toy_secret, toy_signature};
use crate::{DeviceFault, KeyDevice, Made, Point};

/// A key device of formulas over SHA-256, which works the same everywhere and gives no security:
/// who knows its seed knows every key, and its public keys need not lie on the curve. Devices of
/// one seed work together, whatever their owners. It wants no memory.
#[derive(Clone, Copy, Debug)]
pub struct ToyDevice {
    seed: u64,
    owner: u64,
    next: Option<u32>,
    faults: u64,
}

impl ToyDevice {
    ghost use Rattle.key_device.specs.Toy.{toy_point};
    ghost use Rattle.key_device.specs.ToyDevice.{seed_of, owner_of, next_key, faults_of};

    /// A device whose `fresh` hands out the keys `first`, `first + 1` and so on.
    pub fn new(seed: u64, owner: u64, first: u32) -> ToyDevice
        ensures seed { seed_of result ≡ seed }
        ensures owner { owner_of result ≡ owner }
        ensures next { next_key result ≡ Some first }
        ensures faults { faults_of result ≡ 0 }
    {
        ToyDevice {
            seed,
            owner,
            next: Some(first),
            faults: 0,
        }
    }

    fn point(&self, key: u32) -> Point
        ensures { result ≡ toy_point (seed_of self.now) (owner_of self.now) key }
    {
        toy_point(self.seed, self.owner, key)
    }
}

impl KeyDevice for ToyDevice {
    ghost use Rattle.key_device.specs.ToyDevice.{ToyGives, faults_of};

    ghost gives = { ToyGives };

    ghost unasked = { λ _ _. ⊥ };

    ghost faults = { λ d. faults_of d };

    fn fresh(&mut self) -> Result<Made, DeviceFault> {
        let Some(key) = self.next else {
            self.faults = self.faults.saturating_add(1);
            return Err(DeviceFault::Failed);
        };
        self.next = key.checked_add(1);
        Ok(Made {
            key,
            public: self.point(key),
        })
    }

    fn agree(&mut self, key: u32, peer: &Point) -> Result<Option<[u8; 32]>, DeviceFault> {
        if is_refused(peer) {
            return Ok(None);
        }
        Ok(Some(toy_secret(self.seed, &self.point(key), peer)))
    }

    fn sign(&mut self, key: u32, message: &[u8]) -> Result<[u8; 64], DeviceFault> {
        Ok(toy_signature(self.seed, &self.point(key), message))
    }

    fn verify(
        &mut self,
        public: &Point,
        message: &[u8],
        signature: &[u8; 64],
    ) -> Result<bool, DeviceFault> {
        Ok(signature[..] == toy_signature(self.seed, public, message)[..])
    }
}

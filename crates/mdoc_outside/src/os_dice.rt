// A dice that is the random source of the system.
use crate::{Dice, DiceFault};
use std::random::RandomSource;

/// The random source of the system. It doesn't tell what it deals.
#[derive(Drop)]
pub struct OsDice<S: RandomSource + Drop> {
    rt: S,
    faults: u64,
}

impl<S: RandomSource + Drop> OsDice<S> {
    /// The random source that the runtime reaches.
    pub fn new(rt: S) -> OsDice<S> {
        OsDice { rt, faults: 0 }
    }
}

impl<S: RandomSource + Drop> Dice for OsDice<S> {
    ghost gives = { λ _ _ _. Unit {0} };

    ghost faults = { λ d. d.faults };

    fn next(&mut self) -> Result<u64, DiceFault> {
        let mut bytes = [0; 8];
        match self.rt.fill_bytes(&mut bytes) {
            Ok(()) => Ok(u64::from_le_bytes(bytes)),
            Err(_) => {
                self.faults = self.faults.saturating_add(1);
                Err(DiceFault::Failed)
            }
        }
    }
}

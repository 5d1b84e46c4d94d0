// A question with its answer.
use crate::{Ask, Told};

/// A question to a key device, with what the device told.
#[derive(Drop)]
pub struct Exchange {
    /// The question.
    pub ask: Ask,
    /// What was told.
    pub told: Told,
}

//! Laws of what `draft` prints, alone.
//!
//! The one contract: the core that `draft` prints of a document answers it as a wallet does which shows the same copies, and
//! releases the same places.
#![tactic(auto)]

mod laws;

pub use laws::draft_answers_as_wallet;

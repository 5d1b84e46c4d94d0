//! Laws of what a wallet releases, alone.
//!
//! The one contract: the places that a wallet releases are exactly those of the items of its response, one for one and in
//! order.
#![tactic(auto)]

mod laws;

pub use laws::{agreement_is_least, released_exactly, rounds_release_exactly};

//! The commands of the program `mdoc` over objects that are handed in, with the session theorem on the one
//! call `run`: what `draft` prints is what the holder's rules release, and every other answer has its cause.
#![tactic(auto)]

mod command;
mod laws;
mod order;
mod program;

pub use command::Command;
pub use laws::{
    agreeing_stores, done_exactly, failed_read_exactly, missing_exactly, refused_exactly,
};
pub use mdoc_frame::{FileFault, FormCheck, Role, Status, read_wishes};
pub use program::run;

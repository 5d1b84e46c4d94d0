//! Key devices: who makes keys, agrees on secrets, signs and verifies for the mobile driving
//! licence, behind one trait. A recorder keeps what was asked and told; a replaying device answers
//! from such a recording; a toy device, which gives no security, serves tests. Its one contract:
//! a call of a recorder adds to its talk exactly the question that was asked with what the device
//! gave, and the definitions that ask questions are plans of which such a talk is a walk.
#![tactic(auto)]

mod ask;
mod device_fault;
mod exchange;
mod gave_laws;
mod has_line;
mod key_device;
mod laws;
mod made;
mod point;
mod question;
mod questions;
mod recorder;
mod replay_device;
mod sharing;
mod tape_fault;
mod tape_file;
mod tape_line;
mod tape_text;
mod tape_words;
mod told;
mod toy_device;
mod toy_formulas;

pub use ask::Ask;
pub use device_fault::DeviceFault;
pub use exchange::Exchange;
pub use gave_laws::{
    failures_told_are_counted, followed_plan_over_what_was_left, own_devices_give_as_they_say,
};
pub use key_device::KeyDevice;
pub use laws::{
    followed_plan_has_one_outcome, followed_plan_over_its_sources, followed_plan_over_its_talk,
    plans_are_followed_in_parts, steps_go_on_at_the_end, written_tape_is_read,
};
pub use made::Made;
pub use point::Point;
pub use questions::{ask_fresh, ask_signature, ask_verified};
pub use recorder::Recorder;
pub use replay_device::ReplayDevice;
pub use sharing::types_are_send_and_sync;
pub use tape_fault::TapeFault;
pub use told::Told;
pub use toy_device::ToyDevice;

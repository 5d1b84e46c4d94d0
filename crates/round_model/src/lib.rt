//! Rounds of a session: what one end does with the list of messages that it got, as a plan of questions.
//! The ends of a session, the wallet's and the reader's, are defined over these words. Its one contract:
//! the laws by which one message more at the end adds its round, and nothing else.
#![tactic(auto)]

mod laws;

pub use laws::{ends_are_alike, one_message_more};

//! Messages in fragments (ISO/IEC 18013-5, 8.3.3.1.1): a message is cut into fragments, and the fragments that come to an end of
//! a session are joined to messages.
//!
//! The one contract: a joiner answers, fragment by fragment, the messages and the end that the definition finds in the whole
//! list; what one more fragment brings is the message that the definition finds with it and not before it, or how the fragments
//! end.
#![tactic(auto)]

mod arrival;
mod cuts;
mod cutting;
mod ending;
mod fed;
mod join_fault;
mod joiner;
mod last;
mod laws;
mod message_joiner;
mod part;
mod piece;
mod sharing;

pub use arrival::Arrival;
pub use cuts::Cuts;
pub use cutting::cut;
pub use ending::Ending;
pub use fed::Fed;
pub use join_fault::JoinFault;
pub use joiner::Joiner;
pub use last::may_end_message;
pub use laws::{cuts_are_joined, pieces_are_counted, pieces_are_the_message, whole_continues};
pub use message_joiner::MessageJoiner;
pub use piece::Piece;
pub use sharing::types_are_send_and_sync;

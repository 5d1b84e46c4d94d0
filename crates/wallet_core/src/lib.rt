//! The wallet's end of a session (ISO/IEC 18013-5, 8.2.1, 8.3.3.1.1 and 9.1.1): it is started and announced, takes the
//! fragments that come, one by one, and answers what is to be sent.
//!
//! The one contract: a node stands for the fragments that came. Its questions to the key device, its replies, the places that
//! it released and its end are those that the definition finds in the whole list of fragments.
#![tactic(auto)]

mod after_round;
mod announced;
mod ending;
mod first_message;
mod later_message;
mod laws;
mod node;
mod node_room;
mod reply;
mod replying;
mod round;
mod round_room;
mod sharing;
mod start_fault;
mod started;
mod starting;
mod state;
mod waiting;
mod want_of_memory;

pub use after_round::AfterRound;
pub use announced::Announced;
pub use first_message::first_round;
pub use later_message::next_round;
pub use laws::sent_grows;
pub use node::WalletNode;
pub use reply::Reply;
pub use round::Round;
pub use session_seal::WalletEnd;
pub use sharing::types_are_send_and_sync;
pub use start_fault::StartFault;
pub use started::Started;
pub use starting::start;
pub use wallet_answer::WalletSetup;
pub use wallet_model::ReleasedAt;

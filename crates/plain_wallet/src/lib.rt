//! A plain wallet: the whole list of fragments is taken at once, and the whole answer is given. It is slow, and keeps nothing
//! between calls, so that the node, which takes fragments one by one, can be compared with it.
//!
//! The one contract: the questions to the key device, and what is announced, replied and released and the end, are those of
//! the definition over the list.
#![tactic(auto)]

mod message_list;
mod plain_round;
mod plain_run;
mod rounds;
mod sharing;
mod wallet;

pub use plain_run::PlainRun;
pub use session_seal::WalletEnd;
pub use sharing::types_are_send_and_sync;
pub use wallet::plain_wallet;
pub use wallet_answer::WalletSetup;
pub use wallet_core::StartFault;
pub use wallet_model::ReleasedAt;

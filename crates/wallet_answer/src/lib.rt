//! The wallet's answer to a text that was opened in a session (ISO/IEC 18013-5, 8.3.2.1.2 and 9.1.3): who asks for each
//! document, what is released to it of the copy that is shown, the device's authentications, and the response.
//!
//! The one contract: the questions to the key device, and the answer that they come to, are those of the definition, with the
//! places of the released items.
#![tactic(auto)]

mod answered;
mod answering;
mod authentication;
mod authentications;
mod choosing;
mod documents;
mod held_items;
mod laws;
mod nesting;
mod places;
mod readers;
mod release;
mod released_document;
mod responses;
mod setup;
mod sharing;
mod shown_copy;

pub use answered::Answer;
pub use answering::answer;
pub use laws::no_wish_twice;
pub use places::append_released;
pub use setup::WalletSetup;
pub use sharing::types_are_send_and_sync;

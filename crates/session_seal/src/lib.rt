//! Typed sessions (ISO/IEC 18013-5, 9.1.1): the encrypted channel of both ends as states that are consumed. A key
//! never leaves its state, a message can't be opened twice, and no answer is sealed before its request.
//!
//! The one contract: what an end sends is sealed, and what came is opened, with the keys that the definition derives,
//! at the place that the message has among its end's sealed messages.
#![tactic(auto)]

mod data_message;
mod first_message;
mod kept;
mod laws;
mod places;
mod reader_answered;
mod reader_end;
mod reader_ended;
mod reader_engaged;
mod reader_ready;
mod reader_session;
mod reader_waiting;
mod sealed_data;
mod session_data;
mod session_establishment;
mod session_keys;
mod session_status;
mod sharing;
mod stop;
mod wallet_asked;
mod wallet_end;
mod wallet_ended;
mod wallet_engaged;
mod wallet_open;
mod wallet_session;

pub use kept::Kept;
pub use laws::{
    first_ivs, first_request_is_opened, next_messages_are_opened, written_messages_are_read,
};
pub use reader_answered::ReaderAnswered;
pub use reader_end::ReaderEnd;
pub use reader_ended::ReaderEnded;
pub use reader_engaged::ReaderEngaged;
pub use reader_ready::ReaderReady;
pub use reader_waiting::ReaderWaiting;
pub use session_data::SessionData;
pub use session_establishment::SessionEstablishment;
pub use session_status::SessionStatus;
pub use sharing::types_are_send;
pub use stop::Stop;
pub use wallet_asked::WalletAsked;
pub use wallet_end::WalletEnd;
pub use wallet_ended::WalletEnded;
pub use wallet_engaged::WalletEngaged;
pub use wallet_open::WalletOpen;

//! The wallet's end of a session (ISO/IEC 18013-5, 8.3.2.1.2 and 9.1): what it releases, its rounds, what it sends and
//! how it ends, as a plan of questions to its key device over the fragments that came; and what a node that stands for fragments
//! keeps with one fragment more. Definitions and their laws alone; the node that follows them stands above.
#![tactic(auto)]

mod laws;
mod node_laws;
mod released_at;
mod sharing;

pub use laws::{denied_is_absent, released_only, two_stores};
pub use node_laws::{after_the_end, no_message_taken, one_message_taken};
pub use released_at::ReleasedAt;
pub use sharing::types_are_send_and_sync;

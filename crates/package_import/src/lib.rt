//! The import of a package into a store (ISO/IEC 18013-5, 9.1.2 and 9.3.1).
//!
//! The one contract: the talk with the reader's key device gains exactly the questions of the package's checks; where no
//! document is refused the answer is the merged store, with what is found of each document, and each fault is reported exactly.
#![tactic(auto)]

mod import;
mod import_fault;
mod imported;
mod sharing;

pub use import::{import_package, is_accepted};
pub use import_fault::ImportFault;
pub use imported::Imported;
pub use sharing::types_are_send_and_sync;

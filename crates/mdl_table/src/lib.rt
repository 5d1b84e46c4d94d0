//! The element table of the mobile driving licence (ISO/IEC 18013-5, 7.2.1, table 5): the row of an
//! element's name, whether a value fits its row, and the texts of dates and moments.
//!
//! The one contract: a value fits exactly by the row of its name, and a text is a moment exactly
//! where it is written as the calendar has it.
#![tactic(auto)]

mod date;
mod fitting;
mod form;
mod kinds;
mod laws;
mod moment;
mod moment_text;
mod row;
mod row_fault;
mod sharing;
mod table;

pub use fitting::fits;
pub use form::has_form;
pub use laws::{day_is_written_out, moment_is_written_out, moment_of_its_text};
pub use moment::moment_of;
pub use moment_text::text_of;
pub use row::Row;
pub use row_fault::RowFault;
pub use sharing::types_are_send_and_sync;
pub use table::row_of;

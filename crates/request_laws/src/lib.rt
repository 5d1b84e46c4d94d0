//! Laws of requests (ISO/IEC 18013-5, 8.3.2.1.2.1): definitions and their laws alone.
//!
//! The one contract: a request that was written is read as what was given, its wishes by their namespaces; of a request
//! with which nothing is wrong each document and each element is read; a reader is named only by what was confirmed.
#![tactic(auto)]

mod laws;

pub use laws::{
    every_document_is_read, every_wish_is_kept, reader_name_is_confirmed, written_request_is_read,
};

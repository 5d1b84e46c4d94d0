//! Laws of packages that are issued, alone.
//!
//! The one contract: a package that was issued by a spec which was read is a store within the limits of the form, with the
//! document type, the copies and the items of the spec, and the security object of each copy is made from the items of that
//! copy.
#![tactic(auto)]

mod laws;

pub use laws::{issued_package_is_a_store, objects_of_a_package_are_made_from_its_items};

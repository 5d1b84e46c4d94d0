//! Issuing (ISO/IEC 18013-5, 9.1.2): a package of copies of a licence, each with a key of the holder's device, salts from dice,
//! and a security object that the document signer signed.
//!
//! The one contract: `issue` follows its plan over the questions to both key devices and the words of the dice, and gives the
//! package of the spec; a fault is reported only where that object's count of faults rose, and a limit exactly where it is
//! exceeded.
#![tactic(auto)]

mod copies;
mod copy_room;
mod digests;
mod drafts;
mod grouped_items;
mod issue_fault;
mod issued;
mod issued_item;
mod items;
mod laws;
mod namespaces;
mod objects;
mod package_room;
mod packages;
mod prepared;
mod salts;
mod signed_copy;
mod signer;
mod signers;

pub use issue_fault::IssueFault;
pub use issue_spec::{Spec, SpecFault};
pub use issued::Issued;
pub use laws::object_of_a_copy_is_made_from_its_items;
pub use packages::issue;

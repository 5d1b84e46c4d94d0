//! What may be handed to another thread and shared with it.

use crate::Verdict;
use crate::package_verdict::PackageVerdict;
use mdoc_outside::{is_send, is_sync};

/// The types of this crate may be handed to another thread and shared with it.
pub fn types_are_send_and_sync() {
    is_send::<PackageVerdict>();
    is_sync::<PackageVerdict>();
    is_send::<Verdict>();
    is_sync::<Verdict>();
}

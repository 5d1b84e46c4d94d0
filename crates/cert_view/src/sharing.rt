//! What may be handed to another thread and shared with it.

use crate::cert::Cert;
use crate::cert_fault::CertFault;
use crate::root::Root;
use crate::roots::Roots;
use crate::roots_fault::RootsFault;
use crate::verify_ask::VerifyAsk;
use mdoc_outside::{is_send, is_sync};

/// Certificates, what is asked of them, roots and their faults are Send and Sync.
pub fn types_are_send_and_sync() {
    is_send::<Cert<'static>>();
    is_sync::<Cert<'static>>();
    is_send::<VerifyAsk<'static>>();
    is_sync::<VerifyAsk<'static>>();
    is_send::<Root>();
    is_sync::<Root>();
    is_send::<Roots>();
    is_sync::<Roots>();
    is_send::<CertFault>();
    is_sync::<CertFault>();
    is_send::<RootsFault>();
    is_sync::<RootsFault>();
}

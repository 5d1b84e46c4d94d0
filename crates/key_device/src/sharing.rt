// The types of the crate between threads.
use crate::{Exchange, Recorder, ReplayDevice, ToyDevice};
use mdoc_outside::{is_send, is_sync};

/// Holds no work: that it compiles shows that the devices, a recorder of such a device, and
/// exchanges may move to another thread and be shared between threads.
pub fn types_are_send_and_sync<D: Send + Sync>() {
    is_send::<Exchange>();
    is_sync::<Exchange>();
    is_send::<Recorder<D>>();
    is_sync::<Recorder<D>>();
    is_send::<ReplayDevice>();
    is_sync::<ReplayDevice>();
    is_send::<ToyDevice>();
    is_sync::<ToyDevice>();
}

//! Why no verdict is given.

/// Why no verdict is given.
#[derive(Clone, Copy, Debug, PartialEq, Eq)]
pub enum JudgeFault {
    /// The reader's key device failed: its count of faults rose in this call.
    Device,
    /// Memory was wanting.
    Memory,
}

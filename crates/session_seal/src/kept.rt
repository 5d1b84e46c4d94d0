//! A state that memory was wanting to leave.

/// Want of memory: the state is as it was.
#[derive(Drop)]
pub struct Kept<S> {
    /// The state.
    pub state: S,
}

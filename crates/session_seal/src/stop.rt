//! Why a state wasn't left for the next one.

/// Why a state wasn't left for the next one.
#[derive(Drop)]
pub enum Stop<S, E> {
    /// The session ended.
    Ended(E),
    /// Memory was wanting before the device told anything, and the state is as it was.
    Back(S),
    /// Memory was wanting after the device told something, and the state is lost. No call of this crate answers
    /// it, since each takes its memory before it asks.
    Spent,
}

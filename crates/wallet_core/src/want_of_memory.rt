//! Want of memory in a round.

/// Memory was wanting in a round.
#[derive(Drop)]
pub enum WantOfMemory<S> {
    /// Before a question: the state is as it was.
    Back(S),
    /// After a question: the session is lost.
    Spent,
}

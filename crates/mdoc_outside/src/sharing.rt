// The owned types between threads.
use crate::{CountDice, Dealt, End, Fragment, ListDice, Octets, Rows, Word};

/// Holds no work: that a call compiles shows that values of the type may move to another thread.
pub fn is_send<T: Send>() {}

/// Holds no work: that a call compiles shows that values of the type may be shared between threads.
pub fn is_sync<T: Sync>() {}

/// Holds no work: that it compiles shows that `Octets`, `Word`, fragments, `Rows` of such items, the
/// dice in memory and a dice that keeps the words of such a one may move to another thread and be
/// shared between threads.
pub fn types_are_send_and_sync<T: Send + Sync>() {
    is_send::<Octets>();
    is_sync::<Octets>();
    is_send::<Fragment>();
    is_sync::<Fragment>();
    is_send::<End>();
    is_sync::<End>();
    is_send::<Word>();
    is_sync::<Word>();
    is_send::<Rows<T>>();
    is_sync::<Rows<T>>();
    is_send::<ListDice>();
    is_sync::<ListDice>();
    is_send::<CountDice>();
    is_sync::<CountDice>();
    is_send::<Dealt<T>>();
    is_sync::<Dealt<T>>();
}

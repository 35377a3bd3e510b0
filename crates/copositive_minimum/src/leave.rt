//! The leave to start threads.

use std::marker::PhantomData;
use std::sync::Wait;
use std::thread::Threads;

/// The leave of a handle to start threads and to wait. It holds nothing of the handle, so each thread may have it whatever the
/// handle is. Where a trait's method has a handle of its type's, nothing shows that threads may share that one; so the method
/// passes the leave on.
#[derive(Drop)]
pub(crate) struct Leave<R> {
    handle: PhantomData<R>,
}

impl<R: Threads> Threads for Leave<R> {}

impl<R: Wait> Wait for Leave<R> {}

impl<R> Leave<R> {
    /// The leave of a handle.
    pub(crate) fn of(_rt: &R) -> Leave<R> {
        Leave {
            handle: PhantomData,
        }
    }
}

//! The frames of a thread.
use words_numbers::{ObjId, Tid};

/// What a frame is for. A thread has a main frame, above it at most one cleanup frame, and on top at most one signal frame.
#[derive(Clone, Copy)]
pub enum FrameKind {
    /// The thread's own body, as the start routine of `pthread_create`.
    Main,
    /// A cleanup handler, as of `pthread_cleanup_push`.
    Cleanup,
    /// A signal-catching function.
    Signal,
}

/// Whose body a frame runs.
#[derive(Clone, Copy)]
pub enum BodyOf {
    Thread(Tid),
    Cleanup(ObjId),
    Handler(ObjId),
}

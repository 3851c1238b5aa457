//! The entries of a history, and why a further one is refused.
use crate::event::Event;
use crate::post::Posts;
use crate::reply::Reply;

/// An entry of a history. Actor 0 is the scene's own, `main`.
#[derive(Drop)]
pub struct Entry {
    pub actor: u32,
    pub event: Event,
    pub reply: Reply,
    pub posts: Posts,
}

/// Why a step was refused; nothing has changed then.
#[derive(Clone, Copy, Debug, PartialEq, Eq)]
pub enum StepFault {
    /// All entries of the room are in use.
    Spent { entries: u32 },
    /// A read would hand out more bytes than the room has left.
    BytesSpent { bytes: u32 },
}

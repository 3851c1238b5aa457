//! What an event finds.
use pipe_model::{Entry, Setup};

/// What an event finds: what was set, the bytes that writes name, all entries before it, the oldest
/// first, which paths are up by slot, and how many bytes reads have handed out.
#[derive(Clone, Copy)]
pub struct Moment<'a> {
    pub setup: &'a Setup,
    pub payload: &'a [u8],
    pub history: &'a [Entry],
    pub paths: &'a [bool],
    pub heard: u32,
}

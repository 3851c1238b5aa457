//! What an end tells its peer, in plain numbers.

/// What an end tells its peer in one CDC message (RFC 7609, appendix A.4), in numbers that never wrap.
#[derive(Clone, Copy, Debug, PartialEq, Eq)]
pub struct Snapshot {
    /// The message's number.
    pub number: u64,
    /// How many bytes the end has posted.
    pub told: u64,
    /// How many bytes of its peer it has read.
    pub read: u64,
    /// It will write no more.
    pub done: bool,
    /// It has closed.
    pub closed: bool,
    /// It was reset.
    pub aborted: bool,
}

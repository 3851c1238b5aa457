//! What the calls of an end answer.
use cdc_ring::Piece;
use cdc_wire::CdcMessage;
use pipe_model::ResetCause;

/// What a call of the application is told.
#[derive(Clone, Copy, Debug, PartialEq, Eq)]
pub enum EndReply {
    /// So many bytes were taken from the application.
    Wrote(u32),
    /// The window has no room.
    Full,
    /// The next `len` bytes of the peer are handed out, which begin at place `from` of the element.
    Take { from: u32, len: u32 },
    /// The peer has told of no byte that is unread.
    Empty,
    /// The peer will tell of no further byte.
    End,
    /// The end, or its peer for a write, was finished or closed before.
    Ended,
    /// The call was done.
    Done,
    /// The connection was reset for this cause.
    Reset(ResetCause),
}

/// What a message of the peer was.
#[derive(Clone, Copy, Debug, PartialEq, Eq)]
pub enum Taken {
    /// A snapshot, which is now the last one taken.
    Fresh,
    /// A validation message that shows no gap.
    Valid,
    /// A validation message that shows a gap: its number is past that of the last snapshot taken.
    Gap { told: u16, taken: u16 },
}

/// What an end posts at once.
#[derive(Clone, Copy, Debug, PartialEq, Eq)]
pub struct Batch {
    /// The validation message of a move.
    pub check: Option<CdcMessage>,
    /// Where the new bytes go in the peer's element. The second piece begins at its start.
    pub pieces: (Piece, Piece),
    /// The message that tells them.
    pub message: Option<CdcMessage>,
}

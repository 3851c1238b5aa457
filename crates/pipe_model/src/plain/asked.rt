//! What an application asks of an end, and what it is told.
use crate::reply::Reply;

/// A call on an end, or the end's move to another link.
#[derive(Clone, Copy, Debug)]
pub enum PlainCall<'a> {
    /// The application hands over these bytes.
    Write(&'a [u8]),
    /// It asks for at most so many bytes.
    Read(u32),
    /// It will write no more.
    Finish,
    /// It will neither write nor read any more.
    Close,
    /// It resets the connection.
    Abort,
    /// It looks whether a read would give something.
    Await,
    /// The end moves to another link of its group.
    Move,
}

/// What a call is told; a read that hands out bytes is told the bytes themselves.
#[derive(Debug, Drop)]
pub enum PlainTold {
    Answer(Reply),
    HandsOut(Vec<u8>),
}

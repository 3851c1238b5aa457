//! The actions of applications, message pumps and failing links.
use smc_num::Side;

/// One end of a socket: the socket's number, from 0 in the order of the first mention, at one side.
#[derive(Clone, Copy, Debug, PartialEq, Eq)]
pub struct End {
    pub side: Side,
    pub s: u32,
}

/// One action on the whole state. `at` and `len` name bytes of the payload, `dir` is the side that
/// sent, and a slot is a number from 1.
#[derive(Clone, Copy, Debug, PartialEq, Eq)]
pub enum Event {
    /// The application at A connects, and the one at B accepts.
    Open(u32),
    /// A client that is no SMC-R peer puts bytes into the TCP stream to B.
    Raw { s: u32, at: u32, len: u32 },
    /// The application hands over bytes.
    Write { end: End, at: u32, len: u32 },
    /// The application asks for at most `len` bytes.
    Read { end: End, len: u32 },
    /// The application will write no more.
    Finish(End),
    /// The application will neither write nor read any more.
    Close(End),
    /// The application resets the connection.
    Abort(End),
    /// The application looks whether a read would give something.
    Await(End),
    /// The peer of `dir` takes the next CLC message of that side.
    Clc { s: u32, dir: Side },
    /// The next post of `dir` on the slot's link lands at its peer.
    Deliver { slot: u8, dir: Side },
    /// The oldest landed post of `dir` on the slot's link completes at its sender.
    Complete { slot: u8, dir: Side },
    /// The next post of `dir` on the slot's cut link is lost, and counts as completed.
    Swallow { slot: u8, dir: Side },
    /// The slot's path goes down.
    Cut(u8),
    /// The slot's path comes up.
    Heal(u8),
    /// A side learns that its link on the slot is dead.
    Report { side: Side, slot: u8 },
    /// An end moves to another link of its group.
    Move(End),
    /// The server adds a link to the group.
    Grow,
    /// A side tests its link on the slot.
    Test { side: Side, slot: u8 },
    /// A side takes the keys of its unused buffers back.
    Trim(Side),
}

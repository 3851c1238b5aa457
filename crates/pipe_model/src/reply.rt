//! What an actor is told, with each named cause of a refusal.
use crate::post::PostRef;
use clc_wire::ClcFault;

/// What an actor is told.
#[derive(Clone, Copy, Debug, PartialEq, Eq)]
pub enum Reply {
    /// The socket is open, and its handshake has begun.
    Opened,
    /// The socket was opened before.
    NameUsed,
    /// There is no such end.
    NoSocket,
    /// So many bytes were taken from the application.
    Wrote(u32),
    /// The window has no room.
    Full,
    /// The `len` bytes from place `from` on of all that was handed out.
    Bytes { from: u32, len: u32 },
    /// The peer has told of no byte that is unread.
    Empty,
    /// The peer will tell of no further byte.
    End,
    /// The end is still in its handshake.
    NotYet,
    /// The end, or its peer for a write, was finished or closed before.
    Ended,
    /// The call was done.
    Done,
    /// There was nothing to do.
    Idle,
    /// The connection was reset for this cause.
    Reset(ResetCause),
    /// The end came up with this CLC message.
    Established,
    /// The peer declined: the socket goes on over TCP alone.
    FellBack,
    /// The request waits until something else is over.
    Held(Hold),
    /// This message was posted.
    Sent(SentKind),
    /// SMC-R was declined: the socket goes on over TCP alone.
    Declined(Lack),
    /// This post landed.
    Landed(PostRef),
    /// This post completed, or was swallowed.
    Completed(PostRef),
    /// A CDC message landed whose token names no connection any more.
    Dropped(u32),
    /// The end moved from one slot's link to another's.
    Moved { from: u8, to: u8 },
    /// The side's last live link was reported, and its group has ended.
    GroupEnded(u32),
}

/// What a request waits for.
#[derive(Clone, Copy, Debug, PartialEq, Eq)]
pub enum Hold {
    /// The group's first link is not confirmed yet.
    FirstContact,
    /// A link is being added.
    AddLink,
    /// A CONFIRM RKEY is not answered yet, or has to be sent again.
    ConfirmRkey,
    /// A DELETE RKEY is not answered yet.
    DeleteRkey,
    /// A TEST LINK on that slot is not answered yet.
    TestLink,
    /// The side's earlier group has not ended yet.
    OldGroup,
}

/// The messages that an event may post, and those that a raw client may send out of turn.
#[derive(Clone, Copy, Debug, PartialEq, Eq)]
pub enum SentKind {
    Proposal,
    Accept,
    Confirm,
    Decline,
    ConfirmLink,
    AddLink,
    ConfirmRkey,
    DeleteRkey,
    TestLink,
}

/// What a side lacks for SMC-R, so that it declines.
#[derive(Clone, Copy, Debug, PartialEq, Eq)]
pub enum Lack {
    /// Not both sides are capable of it: whether A is, and whether B is.
    NotCapable { a: bool, b: bool },
    /// The two sides are in different subnets.
    NoSubnet,
    /// All elements of B are lent.
    NoServerElement { elements: u16 },
    /// A raw client can have no first contact.
    Raw,
    /// No slot has its path up.
    NoSlot { links: u8 },
    /// The Accept names a group that does not stand at A.
    GroupLost { named: u32, stands: u32 },
    /// All elements of A are lent.
    NoClientElement { elements: u16 },
}

/// Why a connection was reset; the first cause stays.
#[derive(Clone, Copy, Debug, PartialEq, Eq)]
pub enum ResetCause {
    /// The application at this end called abort.
    OwnAbort,
    /// The peer's end was reset.
    PeerAbort,
    /// The end's group has ended at its side.
    NoLiveLink { group: u32 },
    /// A validation message named a number past the last one that was taken.
    Gap { told: u16, taken: u16 },
    /// A raw client sent bytes that are no CLC message.
    BadClc(ClcFault),
    /// A raw client sent a message out of turn.
    BadStep(SentKind),
}

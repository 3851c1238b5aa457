//! The words of the handshake: what a side looks at when a CLC message comes, and what it does then.
use crate::flow::KeyPhase;
use crate::reply::{Hold, Lack, SentKind};

/// What the rules of the handshake ask of a side.
#[derive(Clone, Copy, Debug, PartialEq, Eq)]
pub struct Lacks {
    /// Its IPv4 subnet and the prefix length.
    pub subnet: (u32, u8),
    /// Its elements that are lent to nobody.
    pub free: u16,
    /// All its elements.
    pub elements: u16,
    /// Whether the peer knows the keys of the RMB that has the lowest free element.
    pub rmb_ready: bool,
    /// The group that stands at the side, 0 for none.
    pub group: u32,
    /// Whether that group is in first contact.
    pub first_contact: bool,
    /// The slots whose path is up.
    pub slots_up: u8,
    /// All slots.
    pub links: u8,
    /// Which answer its key table waits for.
    pub key_flow: KeyPhase,
    /// Whether a link is being added.
    pub adding: bool,
}

/// What an end does with a CLC message.
#[derive(Clone, Copy, Debug, PartialEq, Eq)]
pub enum ClcStep {
    /// It offers an element, in first contact or later.
    SendAccept { first: bool },
    /// It offers an element in turn; in later contact it is established.
    SendConfirm { first: bool },
    /// It asks the peer to learn the key of an RMB, and leaves the message.
    AskKey,
    /// It leaves the message until this is over.
    Wait(Hold),
    /// It declines, and goes on over TCP alone.
    Decline(Lack),
    /// It was declined, and goes on over TCP alone.
    Fell,
    /// It takes the Confirm; in later contact it is established.
    Ready,
    /// Its group has ended meanwhile: it is reset.
    Lost,
    /// A raw client sent this out of turn: it is reset.
    Wrong(SentKind),
}

//! The words of the LLC flows: what a side sees when a message lands, and what it does then.

/// Which answer a side's key table waits for.
#[derive(Clone, Copy, Debug, PartialEq, Eq)]
pub enum KeyPhase {
    /// None.
    Free,
    /// The answer to a CONFIRM RKEY.
    Asked,
    /// None: a CONFIRM RKEY has to be sent again, at the next CLC message that needs its key.
    Retry,
    /// The answer to a DELETE RKEY.
    Deleting,
}

/// What a side sees of the slot that an LLC message is about.
#[derive(Clone, Copy, Debug, PartialEq, Eq)]
pub struct LinkView {
    /// The slot's path is up.
    pub path_up: bool,
    /// A link stands there at this side.
    pub stands_here: bool,
    /// A link stands there at the peer.
    pub stands_there: bool,
}

/// What a side does with an LLC message that lands.
#[derive(Clone, Copy, Debug, PartialEq, Eq)]
pub enum FlowStep {
    /// Nothing: the message isn't expected.
    Skip,
    /// The link on which it landed is live; with a reply or none, in first contact or later.
    Live { reply: bool, first: bool },
    /// The server tells its keys for the new link.
    SendKeys,
    /// The server gives the new link up.
    Over,
    /// The server asks to confirm the new link.
    AskLink,
    /// The client replies to keys for a new link, with its own where it knows that link.
    ReplyKeys { known: bool },
    /// The client accepts a new link; `again` where it has made the link before.
    ReplyAdd { again: bool },
    /// The client rejects a new link.
    Reject,
    /// The peer has learnt the key.
    Confirmed,
    /// The key has to be told again.
    Retry,
    /// The keys go.
    Withdraw,
    /// The server learns no key while it adds a link.
    ReplyRetry,
    /// The key is learnt.
    Learn,
    /// The keys are forgotten.
    Forget,
    /// The peer has lost a link; `report` where this side learns of it only now.
    Gone { report: bool },
    /// An answer that ends its request.
    Answered,
    /// A test is answered.
    Echo,
}

//! Where the bytes of a connection go and come.
use clc_wire::Offer;
use element_ledger::Element;
use smc_num::{LinkId, Side};

/// What a side keeps of a connection beside its end.
#[derive(Clone, Copy, Debug, PartialEq, Eq)]
pub struct Route {
    /// The link that it is on: the one that its Accept names, until its end moves.
    pub link: LinkId,
    /// Whether its end is established.
    pub up: bool,
    /// The element of this side that is lent to it.
    pub element: Element,
    /// The token that this side gave it.
    pub token: u32,
    /// What the peer offered for it, once that is known.
    pub peer: Option<Offer>,
}

/// How an end may post now.
#[derive(Clone, Copy, Debug, PartialEq, Eq)]
pub struct Way {
    /// The side of the end.
    pub side: Side,
    /// Whether the end is established and its link is live at its side.
    pub live: bool,
    /// The key of the peer's RMB for that link.
    pub key: u32,
}

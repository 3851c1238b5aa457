//! Accept and Confirm, which have the same fields: what the sender brings to the connection.
#![tactic(auto)]

ghost use Rattle.std.specs.Prelude.{◌≡◌, ◌≤◌, length};
ghost use Rattle.clc_wire.specs.Offer.{OfferFits, offer_bytes, offer_at};

use crate::header::{EYE_CATCHER, Kind, put_header};
use arrayvec::ArrayVec;
use field_cases::{get, put};

/// The fields of an Accept or a Confirm, after RFC 7609, appendix A.2.3 and A.2.4.
#[derive(Clone, Copy, Debug, PartialEq, Eq)]
pub struct Offer {
    /// Whether the connection is the first between the two peers, so that the link is set up with it.
    pub first: bool,
    /// The peer id.
    pub peer: [u8; 8],
    /// The GID of the sender's RoCE port.
    pub gid: [u8; 16],
    /// The MAC of the sender's RoCE port.
    pub mac: [u8; 6],
    /// The number of the sender's queue pair, in 24 bits.
    pub qp: u32,
    /// The key of the sender's RMB.
    pub key: u32,
    /// The number of the connection's element in the RMB.
    pub index: u8,
    /// The sender's alert token for the connection.
    pub token: u32,
    /// The code of the element's size, in 4 bits.
    pub size: u8,
    /// The code of the MTU, in 4 bits: 1 to 5 for 256, 512, 1024, 2048 and 4096 bytes.
    pub mtu: u8,
    /// The address of the RMB.
    pub address: u64,
    /// The initial packet sequence number, in 24 bits. Here it carries the number of the link group, since the
    /// fabric in memory has no packet sequence.
    pub psn: u32,
}

/// Writes an Accept or a Confirm.
#[tactic(auto, unfolding(crate::specs::Offer::offer_bytes))]
pub fn write_offer(kind: Kind, offer: &Offer, out: &mut ArrayVec<u8, 68>)
    requires { OfferFits offer.now }
    ensures spelling { out.new.items ≡ offer_bytes kind offer.now }
    ensures length { length out.new.items ≡ 68 }
{
    put_header(out, kind, offer.first);
    put!(out; bytes &offer.peer, bytes &offer.gid, bytes &offer.mac, u24 offer.qp, u32 offer.key, u8 offer.index);
    put!(out; u32 offer.token, u8 offer.size * 16 + offer.mtu, u8 0, u64 offer.address, u8 0, u24 offer.psn);
    put!(out; bytes &EYE_CATCHER);
}

/// Reads the fields behind the header.
#[tactic(auto, unfolding(crate::specs::Offer::offer_at))]
pub fn read_offer(first: bool, bytes: &[u8]) -> Offer
    requires { 68 ≤ length bytes.now }
    ensures { result ≡ offer_at first bytes.now }
{
    Offer {
        first,
        peer: get!(bytes; 8 bytes at 8),
        gid: get!(bytes; 16 bytes at 16),
        mac: get!(bytes; 6 bytes at 32),
        qp: get!(bytes; u24 at 38),
        key: get!(bytes; u32 at 41),
        index: get!(bytes; u8 at 45),
        token: get!(bytes; u32 at 46),
        size: get!(bytes; u8 at 50) / 16,
        mtu: get!(bytes; u8 at 50) % 16,
        address: get!(bytes; u64 at 52),
        psn: get!(bytes; u24 at 61),
    }
}

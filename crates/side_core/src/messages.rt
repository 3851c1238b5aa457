//! The messages that a side makes.
ghost use Rattle.std.specs.Prelude.{◌≡◌};
ghost use Rattle.smc_num.specs.Names.{at_side};
ghost use Rattle.smc_num.specs.Places.{rmb_address};
ghost use Rattle.pipe_model.specs.Messages.{mac, gid, peer_id, proposal, offer, diagnosis, is_out_of_synch, refusal, confirm_link};

use clc_wire::{Offer, Proposal, Refusal};
use llc_wire::LlcMessage;
use pipe_model::{Lack, Setup};
use smc_num::{LinkId, Side};

/// The code of an MTU of 4096 bytes.
const MTU: u8 = 5;

/// The byte of a side in its addresses.
fn host(side: Side) -> u8
    ensures { result ≡ at_side side 0x0a 0x0b }
{
    match side {
        Side::A => 0x0a,
        Side::B => 0x0b,
    }
}

/// The MAC of the port of a slot.
pub(crate) fn mac(side: Side, port: u8) -> [u8; 6]
    ensures { result ≡ mac side port }
{
    [0x02, 0, 0, 0, host(side), port]
}

/// The GID of the port of a slot.
pub(crate) fn gid(side: Side, port: u8) -> [u8; 16]
    ensures { result ≡ gid side port }
{
    let mut gid = [0; 16];
    gid[0] = 0xfe;
    gid[1] = 0x80;
    gid[14] = host(side);
    gid[15] = port;
    gid
}

/// The name of a side as a peer.
pub(crate) fn peer_id(side: Side) -> [u8; 8]
    ensures { result ≡ peer_id side }
{
    [0, 1, 0x02, 0, 0, 0, host(side), 1]
}

/// The Proposal of the client.
pub(crate) fn proposal(setup: &Setup) -> Proposal
    ensures { result ≡ proposal setup.now }
{
    let (subnet, prefix) = setup.subnet[0];
    Proposal {
        peer: peer_id(Side::A),
        gid: gid(Side::A, 1),
        mac: mac(Side::A, 1),
        subnet,
        prefix,
        v6: 0,
    }
}

/// The address of an RMB.
fn rmb_address(rmb: u8) -> u64
    ensures { result ≡ rmb_address rmb }
{
    rmb as u64 * 0x1_0000_0000
}

/// An offer of the element at a place, by its RMB and its number there, for a link.
pub(crate) fn offer(
    setup: &Setup,
    side: Side,
    first: bool,
    link: LinkId,
    qp: u32,
    key: u32,
    place: (u8, u8),
    token: u32,
) -> Offer
    ensures { result ≡ offer setup.now side first link qp key (record { rmb = place.0; index = place.1 }) token }
{
    Offer {
        first,
        peer: peer_id(side),
        gid: gid(side, link.slot),
        mac: mac(side, link.slot),
        qp,
        key,
        index: place.1,
        token,
        size: setup.size_code,
        mtu: MTU,
        address: rmb_address(place.0),
        // The initial packet sequence number carries the group: the fabric in memory has no packet sequence.
        psn: link.group,
    }
}

/// Why a connection is declined, as a number.
fn diagnosis(lack: Lack) -> u32
    ensures { result ≡ diagnosis lack }
{
    match lack {
        Lack::NotCapable { .. } => 0,
        Lack::NoSubnet => 2,
        Lack::NoServerElement { .. } => 3,
        Lack::NoClientElement { .. } => 4,
        Lack::NoSlot { .. } => 5,
        Lack::GroupLost { .. } => 6,
        Lack::Raw => 7,
    }
}

/// Whether the sides are out of synch about their links.
fn is_out_of_synch(lack: Lack) -> bool
    ensures { result ≡ is_out_of_synch lack }
{
    matches!(lack, Lack::GroupLost { .. })
}

/// A Decline.
pub(crate) fn refusal(side: Side, lack: Lack) -> Refusal
    ensures { result ≡ refusal side lack }
{
    Refusal {
        out: is_out_of_synch(lack),
        peer: peer_id(side),
        diagnosis: diagnosis(lack),
    }
}

/// CONFIRM LINK for a link, by the number of the side's queue pair there.
pub(crate) fn confirm_link(
    setup: &Setup,
    side: Side,
    reply: bool,
    link: LinkId,
    qp: u32,
) -> LlcMessage
    ensures { result ≡ confirm_link setup.now side reply link qp }
{
    LlcMessage::ConfirmLink {
        reply,
        mac: mac(side, link.slot),
        gid: gid(side, link.slot),
        qp,
        link: link.slot,
        user: link.group,
        most: setup.links,
    }
}

//! Proposal, by which a client offers SMC-R.
#![tactic(auto)]

ghost use Rattle.std.specs.Prelude.{◌≡◌, ◌≤◌, length};
ghost use Rattle.clc_wire.specs.Proposal.{proposal_bytes, proposal_at};

use crate::fault::ClcFault;
use crate::header::{EYE_CATCHER, Kind, put_header};
use arrayvec::ArrayVec;
use field_cases::{get, put};

/// The fields of a Proposal, after RFC 7609, appendix A.2.2.
#[derive(Clone, Copy, Debug, PartialEq, Eq)]
pub struct Proposal {
    /// The peer id.
    pub peer: [u8; 8],
    /// The GID of the sender's RoCE port.
    pub gid: [u8; 16],
    /// The MAC of the sender's RoCE port.
    pub mac: [u8; 6],
    /// The sender's IPv4 subnet.
    pub subnet: u32,
    /// The number of bits in the subnet's prefix.
    pub prefix: u8,
    /// The number of IPv6 prefixes, as it was read. None is written.
    pub v6: u8,
}

// Where the subnet stands while nothing lies before the IP area.
const AREA: usize = 40;

/// Writes a Proposal, with nothing before the IP area and no IPv6 prefix.
#[tactic(auto, unfolding(crate::specs::Proposal::proposal_bytes))]
pub fn write_proposal(proposal: &Proposal, out: &mut ArrayVec<u8, 68>)
    ensures spelling { out.new.items ≡ proposal_bytes proposal.now }
    ensures length { length out.new.items ≡ 52 }
{
    put_header(out, Kind::Proposal, false);
    put!(out; bytes &proposal.peer, bytes &proposal.gid, bytes &proposal.mac, u16 0);
    put!(out; u32 proposal.subnet, u8 proposal.prefix, u16 0, u8 0, bytes &EYE_CATCHER);
}

/// Reads the fields behind the header of a message of `len` bytes. The IP area may stand anywhere
/// behind the field that says where, with any number of IPv6 prefixes, as far as the trailer.
#[tactic(auto, unfolding(crate::specs::Proposal::proposal_at))]
pub fn read_proposal(len: u16, bytes: &[u8]) -> Result<Proposal, ClcFault>
    requires least { 52 ≤ len }
    requires there { len ≤ length bytes.now }
    ensures { result ≡ proposal_at len bytes.now }
{
    let too_long = ClcFault::BadLength { value: len };
    let area = AREA + get!(bytes; u16 at 38) as usize;
    if (len as usize) < area + 12 {
        return Err(too_long);
    }
    let v6 = get!(bytes; u8 at area + 7);
    if (len as usize) < area + 12 + 17 * v6 as usize {
        return Err(too_long);
    }
    Ok(Proposal {
        peer: get!(bytes; 8 bytes at 8),
        gid: get!(bytes; 16 bytes at 16),
        mac: get!(bytes; 6 bytes at 32),
        subnet: get!(bytes; u32 at area),
        prefix: get!(bytes; u8 at area + 4),
        v6,
    })
}

//! Decline, after which the connection goes on over TCP.
#![tactic(auto)]

ghost use Rattle.std.specs.Prelude.{◌≡◌, ◌≤◌, length};
ghost use Rattle.clc_wire.specs.Refusal.{refusal_bytes, refusal_at};

use crate::header::{EYE_CATCHER, Kind, put_header};
use arrayvec::ArrayVec;
use field_cases::{get, put};

/// The fields of a Decline, after RFC 7609, appendix A.2.5.
#[derive(Clone, Copy, Debug, PartialEq, Eq)]
pub struct Refusal {
    /// Whether the two peers are out of synch about their links.
    pub out: bool,
    /// The peer id.
    pub peer: [u8; 8],
    /// Why SMC-R is declined, by a code of the sender.
    pub diagnosis: u32,
}

/// Writes a Decline.
#[tactic(auto, unfolding(crate::specs::Refusal::refusal_bytes))]
pub fn write_refusal(refusal: &Refusal, out: &mut ArrayVec<u8, 68>)
    ensures spelling { out.new.items ≡ refusal_bytes refusal.now }
    ensures length { length out.new.items ≡ 28 }
{
    put_header(out, Kind::Decline, refusal.out);
    put!(out; bytes &refusal.peer, u32 refusal.diagnosis, u32 0, bytes &EYE_CATCHER);
}

/// Reads the fields behind the header.
#[tactic(auto, unfolding(crate::specs::Refusal::refusal_at))]
pub fn read_refusal(out: bool, bytes: &[u8]) -> Refusal
    requires { 28 ≤ length bytes.now }
    ensures { result ≡ refusal_at out bytes.now }
{
    Refusal {
        out,
        peer: get!(bytes; 8 bytes at 8),
        diagnosis: get!(bytes; u32 at 16),
    }
}

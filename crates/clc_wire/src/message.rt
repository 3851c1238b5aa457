//! The four messages, written and read.
#![tactic(auto)]

ghost use Rattle.std.specs.Prelude.{◌≡◌, ◌≤◌, ◌++◌, ℕ, List, Ok, IfOk, true, length};
ghost use Rattle.clc_wire.specs.Header.{allows};
ghost use Rattle.clc_wire.specs.Clc.{Fits, IsMessage, HasNoPrefix, clc_bytes, clc_length, message_at, clc_front};
ghost use Rattle.clc_wire.specs.declared.message.ClcMessage.{ClcMessage as Message};

use crate::fault::ClcFault;
use crate::header::{Header, Kind, check_trailer, read_header};
use crate::offer::{Offer, read_offer, write_offer};
use crate::proposal::{Proposal, read_proposal, write_proposal};
use crate::refusal::{Refusal, read_refusal, write_refusal};
use arrayvec::ArrayVec;

/// A CLC message, after RFC 7609, appendix A.2.
#[derive(Clone, Copy, Debug, PartialEq, Eq)]
pub enum ClcMessage {
    /// A client offers SMC-R.
    Proposal(Proposal),
    /// A server takes a Proposal.
    Accept(Offer),
    /// A client takes an Accept.
    Confirm(Offer),
    /// Either declines SMC-R.
    Decline(Refusal),
}

/// Writes the one spelling of a message, in place of what `out` held. The fields of 24 and of 4 bits
/// have to fit.
pub fn write_clc(message: &ClcMessage, out: &mut ArrayVec<u8, 68>)
    requires { Fits message.now }
    ensures spelling { out.new.items ≡ clc_bytes message.now }
    ensures length { length out.new.items ≡ clc_length message.now }
{
    match message {
        ClcMessage::Proposal(proposal) => write_proposal(proposal, out),
        ClcMessage::Accept(offer) => write_offer(Kind::Accept, offer, out),
        ClcMessage::Confirm(offer) => write_offer(Kind::Confirm, offer, out),
        ClcMessage::Decline(refusal) => write_refusal(refusal, out),
    }
}

fn read_fields(header: Header, bytes: &[u8]) -> Result<ClcMessage, ClcFault>
    requires allowed { allows header.kind header.length ≡ true }
    requires there { header.length ≤ length bytes.now }
    ensures { result ≡ message_at header bytes.now }
{
    Ok(match header.kind {
        Kind::Proposal => ClcMessage::Proposal(read_proposal(header.length, bytes)?),
        Kind::Accept => ClcMessage::Accept(read_offer(header.mark, bytes)),
        Kind::Confirm => ClcMessage::Confirm(read_offer(header.mark, bytes)),
        Kind::Decline => ClcMessage::Decline(read_refusal(header.mark, bytes)),
    })
}

/// Reads the message at the front of the bytes, and its length. The fault is the first by place: the
/// header's fields in order, `Short` where the bytes end before one of them or before the message
/// does, then a Proposal whose parts don't fit, then the trailer. Bytes behind the message don't
/// matter.
#[tactic(auto, unfolding(crate::specs::Clc::clc_front))]
pub fn read_clc(bytes: &[u8]) -> Result<(ClcMessage, usize), ClcFault>
    ensures front { result ≡ clc_front bytes.now }
    ensures within { IfOk result (λ read. read.1 ≤ length bytes.now) }
{
    let header = read_header(bytes)?;
    let message = read_fields(header, bytes)?;
    check_trailer(header.length, bytes)?;
    Ok((message, header.length as usize))
}

/// What was written is read again with its length, whatever bytes follow it.
pub fn reads_back()
    ensures read { (message : Message) (rest : List ℕ) → IsMessage message → Fits message → HasNoPrefix message
        → clc_front (clc_bytes message ++ rest) ≡ Ok (message, clc_length message) }
    ensures length { (message : Message) → IsMessage message → length (clc_bytes message) ≡ clc_length message }
{}

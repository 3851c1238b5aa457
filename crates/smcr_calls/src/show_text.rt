//! The texts of messages, by way of a page.
ghost use Rattle.std.specs.Prelude.{◌++◌, ◌/◌, ◌%◌, codes};
ghost use Rattle.std.specs.List.{flat_map};
ghost use Rattle.byte_port.specs.Causes.{HasCause};
ghost use Rattle.byte_port.specs.Pages.{Wrote};
ghost use Rattle.scene_text.specs.Fields.{number_field, two_numbers, flag_text, head_text, cursor_text};
ghost use Rattle.smcr_calls.specs.ShowText.{hex_text, hex_field, byte_field, two_flags, port_text, peer_text, address_text, subnet_text, proposal_text, element_text, buffer_text, offer_text, synch_text, decline_text, clc_text, clc_fault_text, link_text, rejected_text, new_key_text, key_text, token_text, tokens_text, keys_text, llc_text, llc_fault_text, cdc_text, cdc_fault_text};

use crate::fields::{
    put_contact, put_cursor, put_flag, put_head, put_number_field, put_two_numbers,
};
use crate::print_replies::put_fault;
use crate::spell::{put_hex, put_number, put_text};
use byte_port::{Failed, Page, Sink};
use cdc_wire::{CdcFault, CdcMessage};
use clc_wire::{ClcFault, ClcMessage, Offer, Proposal, Refusal};
use llc_wire::{KeyToken, LlcFault, LlcMessage, NewKey};

/// Puts bytes in hexadecimal digits.
#[tactic(auto, using(byte_port::proofs::Paging::pieces))]
fn put_hex_bytes<K: Sink>(page: &mut Page, sink: &mut K, bytes: &[u8]) -> Result<(), Failed>
    ensures wrote { Wrote result (K.held sink.old) page.old (K.held sink.new) page.new (hex_text bytes.now) }
    ensures cause { HasCause (K.faults sink.old) (K.faults sink.new) result }
{
    for byte in bytes {
        put_hex(page, sink, *byte)?;
    }
    Ok(())
}

/// Puts a word and bytes.
#[tactic(auto, using(byte_port::proofs::Paging::pieces))]
fn put_hex_field<K: Sink>(
    page: &mut Page,
    sink: &mut K,
    word: &str,
    bytes: &[u8],
) -> Result<(), Failed>
    ensures wrote { Wrote result (K.held sink.old) page.old (K.held sink.new) page.new (hex_field word.now bytes.now) }
    ensures cause { HasCause (K.faults sink.old) (K.faults sink.new) result }
{
    put_text(page, sink, word)?;
    put_hex_bytes(page, sink, bytes)
}

/// Puts a word and a byte.
#[tactic(auto, using(byte_port::proofs::Paging::pieces))]
fn put_byte_field<K: Sink>(
    page: &mut Page,
    sink: &mut K,
    word: &str,
    byte: u8,
) -> Result<(), Failed>
    ensures wrote { Wrote result (K.held sink.old) page.old (K.held sink.new) page.new (byte_field word.now byte) }
    ensures cause { HasCause (K.faults sink.old) (K.faults sink.new) result }
{
    put_text(page, sink, word)?;
    put_hex(page, sink, byte)
}

/// Puts two words, each where its flag is set.
#[tactic(auto, using(byte_port::proofs::Paging::pieces), unfolding(crate::specs::ShowText::two_flags))]
fn put_two_flags<K: Sink>(
    page: &mut Page,
    sink: &mut K,
    word: &str,
    on: bool,
    second_word: &str,
    second: bool,
) -> Result<(), Failed>
    ensures wrote { Wrote result (K.held sink.old) page.old (K.held sink.new) page.new (two_flags word.now on second_word.now second) }
    ensures cause { HasCause (K.faults sink.old) (K.faults sink.new) result }
{
    put_flag(page, sink, word, on)?;
    put_flag(page, sink, second_word, second)
}

/// Puts a MAC and a GID.
#[tactic(auto, using(byte_port::proofs::Paging::pieces), unfolding(crate::specs::ShowText::port_text))]
fn put_port<K: Sink>(page: &mut Page, sink: &mut K, mac: &[u8], gid: &[u8]) -> Result<(), Failed>
    ensures wrote { Wrote result (K.held sink.old) page.old (K.held sink.new) page.new (port_text mac.now gid.now) }
    ensures cause { HasCause (K.faults sink.old) (K.faults sink.new) result }
{
    put_hex_field(page, sink, " mac ", mac)?;
    put_hex_field(page, sink, " gid ", gid)
}

/// Puts a peer's id, GID and MAC.
#[tactic(auto, using(byte_port::proofs::Paging::pieces), unfolding(crate::specs::ShowText::peer_text))]
fn put_peer<K: Sink>(
    page: &mut Page,
    sink: &mut K,
    peer: &[u8],
    gid: &[u8],
    mac: &[u8],
) -> Result<(), Failed>
    ensures wrote { Wrote result (K.held sink.old) page.old (K.held sink.new) page.new (peer_text peer.now gid.now mac.now) }
    ensures cause { HasCause (K.faults sink.old) (K.faults sink.new) result }
{
    put_hex_field(page, sink, " peer ", peer)?;
    put_hex_field(page, sink, " gid ", gid)?;
    put_hex_field(page, sink, " mac ", mac)
}

/// Puts the two last bytes of an IPv4 address.
#[tactic(auto, using(byte_port::proofs::Paging::pieces))]
fn put_address_end<K: Sink>(page: &mut Page, sink: &mut K, address: u32) -> Result<(), Failed>
    ensures wrote { Wrote result (K.held sink.old) page.old (K.held sink.new) page.new (number_field (codes ".") (address / 256 % 256) ++ number_field (codes ".") (address % 256)) }
    ensures cause { HasCause (K.faults sink.old) (K.faults sink.new) result }
{
    put_number_field(page, sink, ".", (address / 256 % 256) as u64)?;
    put_number_field(page, sink, ".", (address % 256) as u64)
}

/// Puts an IPv4 address.
#[tactic(auto, using(byte_port::proofs::Paging::pieces), unfolding(crate::specs::ShowText::address_text))]
fn put_address<K: Sink>(page: &mut Page, sink: &mut K, address: u32) -> Result<(), Failed>
    ensures wrote { Wrote result (K.held sink.old) page.old (K.held sink.new) page.new (address_text address) }
    ensures cause { HasCause (K.faults sink.old) (K.faults sink.new) result }
{
    put_number(page, sink, (address / 16_777_216) as u64)?;
    put_number_field(page, sink, ".", (address / 65_536 % 256) as u64)?;
    put_address_end(page, sink, address)
}

/// Puts a subnet.
#[tactic(auto, using(byte_port::proofs::Paging::pieces), unfolding(crate::specs::ShowText::subnet_text))]
fn put_subnet<K: Sink>(page: &mut Page, sink: &mut K, subnet: u32, prefix: u8) -> Result<(), Failed>
    ensures wrote { Wrote result (K.held sink.old) page.old (K.held sink.new) page.new (subnet_text subnet prefix) }
    ensures cause { HasCause (K.faults sink.old) (K.faults sink.new) result }
{
    put_text(page, sink, " subnet ")?;
    put_address(page, sink, subnet)?;
    put_number_field(page, sink, "/", prefix as u64)
}

/// Puts the peer and the subnets of a Proposal.
#[tactic(auto, using(byte_port::proofs::Paging::pieces))]
fn put_proposal_fields<K: Sink>(
    page: &mut Page,
    sink: &mut K,
    proposal: &Proposal,
) -> Result<(), Failed>
    ensures wrote { Wrote result (K.held sink.old) page.old (K.held sink.new) page.new (peer_text proposal.now.peer proposal.now.gid proposal.now.mac ++ (subnet_text proposal.now.subnet proposal.now.prefix ++ number_field (codes " prefixes ") proposal.now.v6)) }
    ensures cause { HasCause (K.faults sink.old) (K.faults sink.new) result }
{
    put_peer(page, sink, &proposal.peer, &proposal.gid, &proposal.mac)?;
    put_subnet(page, sink, proposal.subnet, proposal.prefix)?;
    put_number_field(page, sink, " prefixes ", proposal.v6 as u64)
}

/// Puts a Proposal.
#[tactic(auto, using(byte_port::proofs::Paging::pieces))]
fn put_proposal<K: Sink>(page: &mut Page, sink: &mut K, proposal: &Proposal) -> Result<(), Failed>
    ensures wrote { Wrote result (K.held sink.old) page.old (K.held sink.new) page.new (proposal_text proposal.now) }
    ensures cause { HasCause (K.faults sink.old) (K.faults sink.new) result }
{
    put_text(page, sink, "proposal")?;
    put_proposal_fields(page, sink, proposal)
}

/// Puts the queue pair and the element of an offer.
#[tactic(auto, using(byte_port::proofs::Paging::pieces), unfolding(crate::specs::ShowText::element_text))]
fn put_element<K: Sink>(page: &mut Page, sink: &mut K, offer: &Offer) -> Result<(), Failed>
    ensures wrote { Wrote result (K.held sink.old) page.old (K.held sink.new) page.new (element_text offer.now) }
    ensures cause { HasCause (K.faults sink.old) (K.faults sink.new) result }
{
    put_two_numbers(
        page,
        sink,
        " qp ",
        offer.qp as u64,
        " key ",
        offer.key as u64,
    )?;
    put_two_numbers(
        page,
        sink,
        " index ",
        offer.index as u64,
        " token ",
        offer.token as u64,
    )
}

/// Puts the sizes and places of an offer.
#[tactic(auto, using(byte_port::proofs::Paging::pieces), unfolding(crate::specs::ShowText::buffer_text))]
fn put_buffer<K: Sink>(page: &mut Page, sink: &mut K, offer: &Offer) -> Result<(), Failed>
    ensures wrote { Wrote result (K.held sink.old) page.old (K.held sink.new) page.new (buffer_text offer.now) }
    ensures cause { HasCause (K.faults sink.old) (K.faults sink.new) result }
{
    put_two_numbers(
        page,
        sink,
        " size ",
        offer.size as u64,
        " mtu ",
        offer.mtu as u64,
    )?;
    put_two_numbers(page, sink, " at ", offer.address, " psn ", offer.psn as u64)
}

/// Puts the peer, the element and the sizes of an offer.
#[tactic(auto, using(byte_port::proofs::Paging::pieces))]
fn put_offer_fields<K: Sink>(page: &mut Page, sink: &mut K, offer: &Offer) -> Result<(), Failed>
    ensures wrote { Wrote result (K.held sink.old) page.old (K.held sink.new) page.new (peer_text offer.now.peer offer.now.gid offer.now.mac ++ (element_text offer.now ++ buffer_text offer.now)) }
    ensures cause { HasCause (K.faults sink.old) (K.faults sink.new) result }
{
    put_peer(page, sink, &offer.peer, &offer.gid, &offer.mac)?;
    put_element(page, sink, offer)?;
    put_buffer(page, sink, offer)
}

/// Puts an Accept or a Confirm.
#[tactic(auto, using(byte_port::proofs::Paging::pieces))]
fn put_offer<K: Sink>(
    page: &mut Page,
    sink: &mut K,
    word: &str,
    offer: &Offer,
) -> Result<(), Failed>
    ensures wrote { Wrote result (K.held sink.old) page.old (K.held sink.new) page.new (offer_text word.now offer.now) }
    ensures cause { HasCause (K.faults sink.old) (K.faults sink.new) result }
{
    put_text(page, sink, word)?;
    put_contact(page, sink, offer.first)?;
    put_offer_fields(page, sink, offer)
}

/// Puts whether two peers are out of synch.
#[tactic(auto, using(byte_port::proofs::Paging::pieces))]
fn put_synch<K: Sink>(page: &mut Page, sink: &mut K, is_out: bool) -> Result<(), Failed>
    ensures wrote { Wrote result (K.held sink.old) page.old (K.held sink.new) page.new (synch_text is_out) }
    ensures cause { HasCause (K.faults sink.old) (K.faults sink.new) result }
{
    put_text(page, sink, if is_out { " out" } else { " synch" })
}

/// Puts the peer and the diagnosis of a Decline.
#[tactic(auto, using(byte_port::proofs::Paging::pieces))]
fn put_refusal_fields<K: Sink>(
    page: &mut Page,
    sink: &mut K,
    refusal: &Refusal,
) -> Result<(), Failed>
    ensures wrote { Wrote result (K.held sink.old) page.old (K.held sink.new) page.new (hex_field (codes " peer ") refusal.now.peer ++ number_field (codes " diagnosis ") refusal.now.diagnosis) }
    ensures cause { HasCause (K.faults sink.old) (K.faults sink.new) result }
{
    put_hex_field(page, sink, " peer ", &refusal.peer)?;
    put_number_field(page, sink, " diagnosis ", refusal.diagnosis as u64)
}

/// Puts a Decline.
#[tactic(auto, using(byte_port::proofs::Paging::pieces))]
fn put_decline<K: Sink>(page: &mut Page, sink: &mut K, refusal: &Refusal) -> Result<(), Failed>
    ensures wrote { Wrote result (K.held sink.old) page.old (K.held sink.new) page.new (decline_text refusal.now) }
    ensures cause { HasCause (K.faults sink.old) (K.faults sink.new) result }
{
    put_text(page, sink, "decline")?;
    put_synch(page, sink, refusal.out)?;
    put_refusal_fields(page, sink, refusal)
}

/// Puts a CLC message.
#[tactic(auto, using(byte_port::proofs::Paging::pieces))]
pub fn put_clc<K: Sink>(page: &mut Page, sink: &mut K, message: &ClcMessage) -> Result<(), Failed>
    ensures wrote { Wrote result (K.held sink.old) page.old (K.held sink.new) page.new (clc_text message.now) }
    ensures cause { HasCause (K.faults sink.old) (K.faults sink.new) result }
{
    match message {
        ClcMessage::Proposal(proposal) => put_proposal(page, sink, proposal),
        ClcMessage::Accept(offer) => put_offer(page, sink, "accept", offer),
        ClcMessage::Confirm(offer) => put_offer(page, sink, "confirm", offer),
        ClcMessage::Decline(refusal) => put_decline(page, sink, refusal),
    }
}

/// Puts what is wrong with the bytes of a CLC message.
#[tactic(auto, using(byte_port::proofs::Paging::pieces))]
pub fn put_clc_fault<K: Sink>(page: &mut Page, sink: &mut K, fault: ClcFault) -> Result<(), Failed>
    ensures wrote { Wrote result (K.held sink.old) page.old (K.held sink.new) page.new (clc_fault_text fault) }
    ensures cause { HasCause (K.faults sink.old) (K.faults sink.new) result }
{
    put_text(page, sink, "fault ")?;
    put_fault(page, sink, fault)
}

/// Puts one end of a link.
#[tactic(auto, using(byte_port::proofs::Paging::pieces), unfolding(crate::specs::ShowText::link_text))]
fn put_link<K: Sink>(
    page: &mut Page,
    sink: &mut K,
    mac: &[u8],
    gid: &[u8],
    qp: u32,
    link: u8,
) -> Result<(), Failed>
    ensures wrote { Wrote result (K.held sink.old) page.old (K.held sink.new) page.new (link_text mac.now gid.now qp link) }
    ensures cause { HasCause (K.faults sink.old) (K.faults sink.new) result }
{
    put_port(page, sink, mac, gid)?;
    put_two_numbers(page, sink, " qp ", qp as u64, " link ", link as u64)
}

/// Puts the reason of an offer that is rejected.
#[tactic(auto, using(byte_port::proofs::Paging::pieces))]
fn put_rejected<K: Sink>(
    page: &mut Page,
    sink: &mut K,
    rejected: bool,
    reason: u8,
) -> Result<(), Failed>
    ensures wrote { Wrote result (K.held sink.old) page.old (K.held sink.new) page.new (rejected_text rejected reason) }
    ensures cause { HasCause (K.faults sink.old) (K.faults sink.new) result }
{
    if rejected {
        put_number_field(page, sink, " rejected ", reason as u64)
    } else {
        Ok(())
    }
}

/// Puts a key for a new link.
#[tactic(auto, using(byte_port::proofs::Paging::pieces))]
fn put_new_key<K: Sink>(page: &mut Page, sink: &mut K, key: &NewKey) -> Result<(), Failed>
    ensures wrote { Wrote result (K.held sink.old) page.old (K.held sink.new) page.new (new_key_text key.now) }
    ensures cause { HasCause (K.faults sink.old) (K.faults sink.new) result }
{
    put_number_field(page, sink, " ", key.reference as u64)?;
    put_number_field(page, sink, "=", key.fresh as u64)?;
    put_number_field(page, sink, "@", key.address)
}

/// Puts keys for a new link.
#[tactic(auto, using(byte_port::proofs::Paging::pieces))]
fn put_new_keys<K: Sink>(page: &mut Page, sink: &mut K, keys: &[NewKey]) -> Result<(), Failed>
    ensures wrote { Wrote result (K.held sink.old) page.old (K.held sink.new) page.new (flat_map new_key_text keys.now) }
    ensures cause { HasCause (K.faults sink.old) (K.faults sink.new) result }
{
    for key in keys {
        put_new_key(page, sink, key)?;
    }
    Ok(())
}

/// Puts a key and its address.
#[tactic(auto, using(byte_port::proofs::Paging::pieces))]
fn put_key<K: Sink>(
    page: &mut Page,
    sink: &mut K,
    mark: &str,
    token: &KeyToken,
) -> Result<(), Failed>
    ensures wrote { Wrote result (K.held sink.old) page.old (K.held sink.new) page.new (key_text mark.now token.now) }
    ensures cause { HasCause (K.faults sink.old) (K.faults sink.new) result }
{
    put_number_field(page, sink, mark, token.key as u64)?;
    put_number_field(page, sink, "@", token.address)
}

/// Puts a key for the link of a number.
#[tactic(auto, using(byte_port::proofs::Paging::pieces))]
fn put_token<K: Sink>(page: &mut Page, sink: &mut K, token: &KeyToken) -> Result<(), Failed>
    ensures wrote { Wrote result (K.held sink.old) page.old (K.held sink.new) page.new (token_text token.now) }
    ensures cause { HasCause (K.faults sink.old) (K.faults sink.new) result }
{
    put_number_field(page, sink, " ", token.number as u64)?;
    put_key(page, sink, "=", token)
}

/// Puts keys for links.
#[tactic(auto, using(byte_port::proofs::Paging::pieces))]
fn put_other_tokens<K: Sink>(
    page: &mut Page,
    sink: &mut K,
    tokens: &[KeyToken],
) -> Result<(), Failed>
    ensures wrote { Wrote result (K.held sink.old) page.old (K.held sink.new) page.new (flat_map token_text tokens.now) }
    ensures cause { HasCause (K.faults sink.old) (K.faults sink.new) result }
{
    for token in tokens {
        put_token(page, sink, token)?;
    }
    Ok(())
}

/// Puts the first token of a message, without a number, and those behind it.
#[tactic(auto, using(byte_port::proofs::Paging::pieces))]
fn put_first_tokens<K: Sink>(
    page: &mut Page,
    sink: &mut K,
    first: &KeyToken,
    others: &[KeyToken],
) -> Result<(), Failed>
    ensures wrote { Wrote result (K.held sink.old) page.old (K.held sink.new) page.new (key_text (codes " ") first.now ++ flat_map token_text others.now) }
    ensures cause { HasCause (K.faults sink.old) (K.faults sink.new) result }
{
    put_key(page, sink, " ", first)?;
    put_other_tokens(page, sink, others)
}

/// Puts the tokens of a message, of which the first has no number.
#[tactic(auto, using(byte_port::proofs::Paging::pieces))]
fn put_tokens<K: Sink>(page: &mut Page, sink: &mut K, tokens: &[KeyToken]) -> Result<(), Failed>
    ensures wrote { Wrote result (K.held sink.old) page.old (K.held sink.new) page.new (tokens_text tokens.now) }
    ensures cause { HasCause (K.faults sink.old) (K.faults sink.new) result }
{
    match tokens {
        [] => Ok(()),
        [first, others @ ..] => put_first_tokens(page, sink, first, others),
    }
}

/// Puts keys with spaces before them.
#[tactic(auto, using(byte_port::proofs::Paging::pieces))]
fn put_keys<K: Sink>(page: &mut Page, sink: &mut K, keys: &[u32]) -> Result<(), Failed>
    ensures wrote { Wrote result (K.held sink.old) page.old (K.held sink.new) page.new (keys_text keys.now) }
    ensures cause { HasCause (K.faults sink.old) (K.faults sink.new) result }
{
    for key in keys {
        put_number_field(page, sink, " ", *key as u64)?;
    }
    Ok(())
}

/// Puts the end of a link and two numbers behind it.
#[tactic(auto, using(byte_port::proofs::Paging::pieces))]
fn put_link_numbers<K: Sink>(
    page: &mut Page,
    sink: &mut K,
    mac: &[u8],
    gid: &[u8],
    qp: u32,
    link: u8,
    word: &str,
    number: u64,
    second_word: &str,
    second: u64,
) -> Result<(), Failed>
    ensures wrote { Wrote result (K.held sink.old) page.old (K.held sink.new) page.new (link_text mac.now gid.now qp link ++ two_numbers word.now number second_word.now second) }
    ensures cause { HasCause (K.faults sink.old) (K.faults sink.new) result }
{
    put_link(page, sink, mac, gid, qp, link)?;
    put_two_numbers(page, sink, word, number, second_word, second)
}

/// Puts the count of the keys for other links, and all keys.
#[tactic(auto, using(byte_port::proofs::Paging::pieces))]
fn put_others<K: Sink>(
    page: &mut Page,
    sink: &mut K,
    others: u8,
    tokens: &[KeyToken],
) -> Result<(), Failed>
    ensures wrote { Wrote result (K.held sink.old) page.old (K.held sink.new) page.new (number_field (codes " others ") others ++ tokens_text tokens.now) }
    ensures cause { HasCause (K.faults sink.old) (K.faults sink.new) result }
{
    put_number_field(page, sink, " others ", others as u64)?;
    put_tokens(page, sink, tokens)
}

/// Puts a mask of errors and keys.
#[tactic(auto, using(byte_port::proofs::Paging::pieces))]
fn put_mask<K: Sink>(page: &mut Page, sink: &mut K, mask: u8, keys: &[u32]) -> Result<(), Failed>
    ensures wrote { Wrote result (K.held sink.old) page.old (K.held sink.new) page.new (byte_field (codes " mask ") mask ++ keys_text keys.now) }
    ensures cause { HasCause (K.faults sink.old) (K.faults sink.new) result }
{
    put_byte_field(page, sink, " mask ", mask)?;
    put_keys(page, sink, keys)
}

/// Puts the count of deleted keys, a mask of errors, and the keys.
#[tactic(auto, using(byte_port::proofs::Paging::pieces))]
fn put_deleted<K: Sink>(
    page: &mut Page,
    sink: &mut K,
    count: u8,
    mask: u8,
    keys: &[u32],
) -> Result<(), Failed>
    ensures wrote { Wrote result (K.held sink.old) page.old (K.held sink.new) page.new (number_field (codes " count ") count ++ (byte_field (codes " mask ") mask ++ keys_text keys.now)) }
    ensures cause { HasCause (K.faults sink.old) (K.faults sink.new) result }
{
    put_number_field(page, sink, " count ", count as u64)?;
    put_mask(page, sink, mask, keys)
}

/// Puts two numbers and keys for a new link.
#[tactic(auto, using(byte_port::proofs::Paging::pieces))]
fn put_counted_keys<K: Sink>(
    page: &mut Page,
    sink: &mut K,
    link: u8,
    count: u8,
    keys: &[NewKey],
) -> Result<(), Failed>
    ensures wrote { Wrote result (K.held sink.old) page.old (K.held sink.new) page.new (two_numbers (codes " link ") link (codes " count ") count ++ flat_map new_key_text keys.now) }
    ensures cause { HasCause (K.faults sink.old) (K.faults sink.new) result }
{
    put_two_numbers(page, sink, " link ", link as u64, " count ", count as u64)?;
    put_new_keys(page, sink, keys)
}

/// Puts a message that deletes links.
#[tactic(auto, using(byte_port::proofs::Paging::pieces))]
fn put_delete_link<K: Sink>(
    page: &mut Page,
    sink: &mut K,
    reply: bool,
    all: bool,
    orderly: bool,
    link: u8,
    reason: u32,
) -> Result<(), Failed>
    ensures wrote { Wrote result (K.held sink.old) page.old (K.held sink.new) page.new (head_text (codes "delete link") reply ++ (two_flags (codes " all") all (codes " orderly") orderly ++ two_numbers (codes " link ") link (codes " reason ") reason)) }
    ensures cause { HasCause (K.faults sink.old) (K.faults sink.new) result }
{
    put_head(page, sink, "delete link", reply)?;
    put_two_flags(page, sink, " all", all, " orderly", orderly)?;
    put_two_numbers(page, sink, " link ", link as u64, " reason ", reason as u64)
}

/// Puts a message that confirms a key.
#[tactic(auto, using(byte_port::proofs::Paging::pieces))]
fn put_confirm_rkey<K: Sink>(
    page: &mut Page,
    sink: &mut K,
    reply: bool,
    retry: bool,
    negative: bool,
    others: u8,
    tokens: &[KeyToken],
) -> Result<(), Failed>
    ensures wrote { Wrote result (K.held sink.old) page.old (K.held sink.new) page.new (head_text (codes "confirm rkey") reply ++ (two_flags (codes " retry") retry (codes " negative") negative ++ (number_field (codes " others ") others ++ tokens_text tokens.now))) }
    ensures cause { HasCause (K.faults sink.old) (K.faults sink.new) result }
{
    put_head(page, sink, "confirm rkey", reply)?;
    put_two_flags(page, sink, " retry", retry, " negative", negative)?;
    put_others(page, sink, others, tokens)
}

/// Puts a message that deletes keys.
#[tactic(auto, using(byte_port::proofs::Paging::pieces))]
fn put_delete_rkey<K: Sink>(
    page: &mut Page,
    sink: &mut K,
    reply: bool,
    negative: bool,
    count: u8,
    mask: u8,
    keys: &[u32],
) -> Result<(), Failed>
    ensures wrote { Wrote result (K.held sink.old) page.old (K.held sink.new) page.new (head_text (codes "delete rkey") reply ++ (flag_text (codes " negative") negative ++ (number_field (codes " count ") count ++ (byte_field (codes " mask ") mask ++ keys_text keys.now)))) }
    ensures cause { HasCause (K.faults sink.old) (K.faults sink.new) result }
{
    put_head(page, sink, "delete rkey", reply)?;
    put_flag(page, sink, " negative", negative)?;
    put_deleted(page, sink, count, mask, keys)
}

/// Puts an LLC message.
#[tactic(auto, using(byte_port::proofs::Paging::pieces))]
pub fn put_llc<K: Sink>(page: &mut Page, sink: &mut K, message: &LlcMessage) -> Result<(), Failed>
    ensures wrote { Wrote result (K.held sink.old) page.old (K.held sink.new) page.new (llc_text message.now) }
    ensures cause { HasCause (K.faults sink.old) (K.faults sink.new) result }
{
    match message {
        LlcMessage::ConfirmLink {
            reply,
            mac,
            gid,
            qp,
            link,
            user,
            most,
        } => {
            put_head(page, sink, "confirm link", *reply)?;
            put_link_numbers(
                page,
                sink,
                mac,
                gid,
                *qp,
                *link,
                " user ",
                *user as u64,
                " most ",
                *most as u64,
            )
        }
        LlcMessage::AddLink {
            reply,
            rejected,
            reason,
            mac,
            gid,
            qp,
            link,
            mtu,
            psn,
        } => {
            put_head(page, sink, "add link", *reply)?;
            put_rejected(page, sink, *rejected, *reason)?;
            put_link_numbers(
                page,
                sink,
                mac,
                gid,
                *qp,
                *link,
                " mtu ",
                *mtu as u64,
                " psn ",
                *psn as u64,
            )
        }
        LlcMessage::AddKeys {
            reply,
            link,
            count,
            keys,
        } => {
            put_head(page, sink, "add keys", *reply)?;
            put_counted_keys(page, sink, *link, *count, keys)
        }
        LlcMessage::DeleteLink {
            reply,
            all,
            orderly,
            link,
            reason,
        } => put_delete_link(page, sink, *reply, *all, *orderly, *link, *reason),
        LlcMessage::ConfirmRkey {
            reply,
            retry,
            negative,
            others,
            tokens,
        } => put_confirm_rkey(page, sink, *reply, *retry, *negative, *others, tokens),
        LlcMessage::TestLink { reply, bytes } => {
            put_head(page, sink, "test link", *reply)?;
            put_hex_field(page, sink, " ", bytes)
        }
        LlcMessage::DeleteRkey {
            reply,
            negative,
            count,
            mask,
            keys,
        } => put_delete_rkey(page, sink, *reply, *negative, *count, *mask, keys),
    }
}

/// Puts what is wrong with the bytes of an LLC message.
#[tactic(auto, using(byte_port::proofs::Paging::pieces))]
pub fn put_llc_fault<K: Sink>(page: &mut Page, sink: &mut K, fault: LlcFault) -> Result<(), Failed>
    ensures wrote { Wrote result (K.held sink.old) page.old (K.held sink.new) page.new (llc_fault_text fault) }
    ensures cause { HasCause (K.faults sink.old) (K.faults sink.new) result }
{
    match fault {
        LlcFault::BadType { value } => put_number_field(
            page,
            sink,
            "fault bad type ",
            value as u64,
        ),
        LlcFault::BadLength { value } => put_number_field(
            page,
            sink,
            "fault bad length ",
            value as u64,
        ),
        LlcFault::BadCount { value } => put_number_field(
            page,
            sink,
            "fault bad count ",
            value as u64,
        ),
    }
}

/// Puts a sender's flags.
#[tactic(auto, using(byte_port::proofs::Paging::pieces))]
fn put_states<K: Sink>(page: &mut Page, sink: &mut K, producer: u8, state: u8) -> Result<(), Failed>
    ensures wrote { Wrote result (K.held sink.old) page.old (K.held sink.new) page.new (byte_field (codes " producer ") producer ++ byte_field (codes " state ") state) }
    ensures cause { HasCause (K.faults sink.old) (K.faults sink.new) result }
{
    put_byte_field(page, sink, " producer ", producer)?;
    put_byte_field(page, sink, " state ", state)
}

/// Puts the cursors and flags of a CDC message.
#[tactic(auto, using(byte_port::proofs::Paging::pieces))]
fn put_cdc_fields<K: Sink>(
    page: &mut Page,
    sink: &mut K,
    message: &CdcMessage,
) -> Result<(), Failed>
    ensures wrote { Wrote result (K.held sink.old) page.old (K.held sink.new) page.new (cursor_text (codes " told ") message.now.told ++ (cursor_text (codes " read ") message.now.read ++ (byte_field (codes " producer ") message.now.producer ++ byte_field (codes " state ") message.now.state))) }
    ensures cause { HasCause (K.faults sink.old) (K.faults sink.new) result }
{
    put_cursor(page, sink, " told ", message.told)?;
    put_cursor(page, sink, " read ", message.read)?;
    put_states(page, sink, message.producer, message.state)
}

/// Puts a CDC message.
#[tactic(auto, using(byte_port::proofs::Paging::pieces))]
pub fn put_cdc<K: Sink>(page: &mut Page, sink: &mut K, message: &CdcMessage) -> Result<(), Failed>
    ensures wrote { Wrote result (K.held sink.old) page.old (K.held sink.new) page.new (cdc_text message.now) }
    ensures cause { HasCause (K.faults sink.old) (K.faults sink.new) result }
{
    put_two_numbers(
        page,
        sink,
        "cdc number ",
        message.number as u64,
        " token ",
        message.token as u64,
    )?;
    put_cdc_fields(page, sink, message)
}

/// Puts what is wrong with the bytes of a CDC message.
#[tactic(auto, using(byte_port::proofs::Paging::pieces))]
pub fn put_cdc_fault<K: Sink>(page: &mut Page, sink: &mut K, fault: CdcFault) -> Result<(), Failed>
    ensures wrote { Wrote result (K.held sink.old) page.old (K.held sink.new) page.new (cdc_fault_text fault) }
    ensures cause { HasCause (K.faults sink.old) (K.faults sink.new) result }
{
    match fault {
        CdcFault::BadType { value } => put_number_field(
            page,
            sink,
            "fault bad type ",
            value as u64,
        ),
        CdcFault::BadLength { value } => put_number_field(
            page,
            sink,
            "fault bad length ",
            value as u64,
        ),
    }
}

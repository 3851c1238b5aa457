//! The lines of posts, by way of a page.
ghost use Rattle.std.specs.Prelude.{◌≡◌, ◌≤◌, ◌++◌, List, take, codes};
ghost use Rattle.std.specs.List.{flat_map};
ghost use Rattle.std.specs.Fmt.{decimal};
ghost use Rattle.byte_port.specs.Causes.{HasCause};
ghost use Rattle.byte_port.specs.Pages.{Wrote};
ghost use Rattle.smc_num.specs.Places.{rmb_at};
ghost use Rattle.scene_text.specs.Fields.{number_field, head_text, flag_text, with_commas, listed};
ghost use Rattle.scene_text.specs.PostText.{link_text, on_link_text, write_text, has, mark_text, marks_text, flags_text, cdc_post_text, answer_text, about_link_text, new_key_text, slot_key_text, token_text, tokens_text, rkey_text, confirm_rkey_text, llc_post_text, on_socket_text, offer_link_text, lent_text, offer_post_text, clc_post_text, post_text, post_line};
ghost use Rattle.smcr_calls.specs.Prints.{names_of};

use crate::fields::{
    put_contact, put_cursor, put_flag, put_head, put_number_field, put_two_numbers,
};
use crate::spell::{put_name, put_number, put_side, put_text};
use byte_port::{Failed, Page, Sink};
use byteorder::{BigEndian, ByteOrder};
use cdc_wire::{ABNORMAL_CLOSE, CLOSED, FAILOVER_VALIDATION, SENDING_DONE};
use pipe_model::{
    CdcMessage, ClcMessage, KeyToken, LinkId, LlcMessage, NewKey, Offer, Post, Refusal, Side,
};

/// Puts a link: its group, slot and incarnation.
#[tactic(auto, using(byte_port::proofs::Paging::pieces), unfolding(scene_text::specs::PostText::link_text, scene_text::specs::Fields::two_numbers))]
fn put_link<K: Sink>(page: &mut Page, sink: &mut K, link: LinkId) -> Result<(), Failed>
    ensures wrote { Wrote result (K.held sink.old) page.old (K.held sink.new) page.new (link_text link) }
    ensures cause { HasCause (K.faults sink.old) (K.faults sink.new) result }
{
    put_number(page, sink, link.group as u64)?;
    put_two_numbers(
        page,
        sink,
        ".",
        link.slot as u64,
        ".",
        link.incarnation as u64,
    )
}

/// Puts the protocol, the sender and the link of a post.
#[tactic(auto, using(byte_port::proofs::Paging::pieces), unfolding(scene_text::specs::PostText::on_link_text))]
fn put_on_link<K: Sink>(
    page: &mut Page,
    sink: &mut K,
    word: &str,
    from: Side,
    link: LinkId,
) -> Result<(), Failed>
    ensures wrote { Wrote result (K.held sink.old) page.old (K.held sink.new) page.new (on_link_text word.now from link) }
    ensures cause { HasCause (K.faults sink.old) (K.faults sink.new) result }
{
    put_text(page, sink, word)?;
    put_side(page, sink, from)?;
    put_text(page, sink, " ")?;
    put_link(page, sink, link)
}

/// Puts what a remote write says.
#[tactic(auto, using(byte_port::proofs::Paging::pieces), unfolding(scene_text::specs::PostText::write_text))]
fn put_write<K: Sink>(
    page: &mut Page,
    sink: &mut K,
    key: u32,
    address: u64,
    len: u32,
) -> Result<(), Failed>
    ensures wrote { Wrote result (K.held sink.old) page.old (K.held sink.new) page.new (write_text key address len) }
    ensures cause { HasCause (K.faults sink.old) (K.faults sink.new) result }
{
    put_two_numbers(page, sink, " key ", key as u64, " at ", address)?;
    put_number_field(page, sink, " len ", len as u64)
}

/// Whether a flag of one bit is set among flags.
fn has(flag: u8, flags: u8) -> bool
    requires { 1 ≤ flag }
    ensures { result ≡ has flag flags }
{
    flags / flag % 2 == 1
}

/// Puts a word where its flag is set, with a comma where another word stands before it.
#[tactic(auto, using(byte_port::proofs::Paging::pieces))]
fn put_mark<K: Sink>(
    page: &mut Page,
    sink: &mut K,
    behind: bool,
    word: &str,
    on: bool,
) -> Result<(), Failed>
    ensures wrote { Wrote result (K.held sink.old) page.old (K.held sink.new) page.new (mark_text behind word.now on) }
    ensures cause { HasCause (K.faults sink.old) (K.faults sink.new) result }
{
    if !on {
        return Ok(());
    }
    if behind {
        put_text(page, sink, ",")?;
    }
    put_text(page, sink, word)
}

/// Puts the words of the flags that are set.
#[tactic(auto, using(byte_port::proofs::Paging::pieces), unfolding(scene_text::specs::PostText::marks_text))]
fn put_marks<K: Sink>(
    page: &mut Page,
    sink: &mut K,
    valid: bool,
    done: bool,
    closed: bool,
    abort: bool,
) -> Result<(), Failed>
    ensures wrote { Wrote result (K.held sink.old) page.old (K.held sink.new) page.new (marks_text valid done closed abort) }
    ensures cause { HasCause (K.faults sink.old) (K.faults sink.new) result }
{
    if !(valid || done || closed || abort) {
        return put_text(page, sink, "-");
    }
    put_mark(page, sink, false, "valid", valid)?;
    put_mark(page, sink, valid, "done", done)?;
    put_mark(page, sink, valid || done, "closed", closed)?;
    put_mark(page, sink, valid || done || closed, "abort", abort)
}

/// Puts the flags of a CDC message.
#[tactic(auto, using(byte_port::proofs::Paging::pieces), unfolding(scene_text::specs::PostText::flags_text))]
fn put_flags<K: Sink>(page: &mut Page, sink: &mut K, message: &CdcMessage) -> Result<(), Failed>
    ensures wrote { Wrote result (K.held sink.old) page.old (K.held sink.new) page.new (flags_text message.now) }
    ensures cause { HasCause (K.faults sink.old) (K.faults sink.new) result }
{
    put_marks(
        page,
        sink,
        has(FAILOVER_VALIDATION, message.producer),
        has(SENDING_DONE, message.state),
        has(CLOSED, message.state),
        has(ABNORMAL_CLOSE, message.state),
    )
}

/// Puts what a CDC message says.
#[tactic(auto, using(byte_port::proofs::Paging::pieces), unfolding(scene_text::specs::PostText::cdc_post_text))]
fn put_cdc_post<K: Sink>(page: &mut Page, sink: &mut K, message: &CdcMessage) -> Result<(), Failed>
    ensures wrote { Wrote result (K.held sink.old) page.old (K.held sink.new) page.new (cdc_post_text message.now) }
    ensures cause { HasCause (K.faults sink.old) (K.faults sink.new) result }
{
    put_two_numbers(
        page,
        sink,
        " token ",
        message.token as u64,
        " number ",
        message.number as u64,
    )?;
    put_cursor(page, sink, " told ", message.told)?;
    put_cursor(page, sink, " read ", message.read)?;
    put_text(page, sink, " ")?;
    put_flags(page, sink, message)
}

/// Puts what an ADD LINK answers, if it answers.
fn put_answer<K: Sink>(
    page: &mut Page,
    sink: &mut K,
    reply: bool,
    rejected: bool,
) -> Result<(), Failed>
    ensures wrote { Wrote result (K.held sink.old) page.old (K.held sink.new) page.new (answer_text reply rejected) }
    ensures cause { HasCause (K.faults sink.old) (K.faults sink.new) result }
{
    if rejected {
        put_text(page, sink, " reject")
    } else {
        put_flag(page, sink, " reply", reply)
    }
}

/// Puts a message's word, whether it is a reply, and the number of the link that it is about.
#[tactic(auto, using(byte_port::proofs::Paging::pieces), unfolding(scene_text::specs::PostText::about_link_text))]
fn put_about_link<K: Sink>(
    page: &mut Page,
    sink: &mut K,
    word: &str,
    reply: bool,
    link: u8,
) -> Result<(), Failed>
    ensures wrote { Wrote result (K.held sink.old) page.old (K.held sink.new) page.new (about_link_text word.now reply link) }
    ensures cause { HasCause (K.faults sink.old) (K.faults sink.new) result }
{
    put_head(page, sink, word, reply)?;
    put_number_field(page, sink, " ", link as u64)
}

/// The first items, at most so many.
#[tactic(auto, using(std::proofs::lemmas::List::take_min))]
fn front<T>(items: &[T], count: u8) -> &[T]
    ensures { result.now ≡ take count items.now }
{
    &items[..(count as usize).min(items.len())]
}

/// Puts a key for a new link.
#[tactic(auto, using(byte_port::proofs::Paging::pieces))]
fn put_new_key<K: Sink>(page: &mut Page, sink: &mut K, key: &NewKey) -> Result<(), Failed>
    ensures wrote { Wrote result (K.held sink.old) page.old (K.held sink.new) page.new (new_key_text key.now) }
    ensures cause { HasCause (K.faults sink.old) (K.faults sink.new) result }
{
    put_number(page, sink, key.reference as u64)?;
    put_number_field(page, sink, "=", key.fresh as u64)
}

/// Puts a comma and a key for a new link.
#[tactic(auto, using(byte_port::proofs::Paging::pieces))]
fn put_later_new_key<K: Sink>(page: &mut Page, sink: &mut K, key: &NewKey) -> Result<(), Failed>
    ensures wrote { Wrote result (K.held sink.old) page.old (K.held sink.new) page.new (codes "," ++ new_key_text key.now) }
    ensures cause { HasCause (K.faults sink.old) (K.faults sink.new) result }
{
    put_text(page, sink, ",")?;
    put_new_key(page, sink, key)
}

/// Puts keys for a new link with a comma before each.
#[tactic(auto, using(byte_port::proofs::Paging::pieces))]
fn put_more_new_keys<K: Sink>(page: &mut Page, sink: &mut K, keys: &[NewKey]) -> Result<(), Failed>
    ensures wrote { Wrote result (K.held sink.old) page.old (K.held sink.new) page.new (with_commas new_key_text keys.now) }
    ensures cause { HasCause (K.faults sink.old) (K.faults sink.new) result }
{
    for key in keys {
        put_later_new_key(page, sink, key)?;
    }
    Ok(())
}

/// Puts a key for a new link, and others with a comma before each.
#[tactic(auto, using(byte_port::proofs::Paging::pieces))]
fn put_new_key_list<K: Sink>(
    page: &mut Page,
    sink: &mut K,
    first: &NewKey,
    others: &[NewKey],
) -> Result<(), Failed>
    ensures wrote { Wrote result (K.held sink.old) page.old (K.held sink.new) page.new (new_key_text first.now ++ with_commas new_key_text others.now) }
    ensures cause { HasCause (K.faults sink.old) (K.faults sink.new) result }
{
    put_new_key(page, sink, first)?;
    put_more_new_keys(page, sink, others)
}

/// Puts keys for a new link.
fn put_new_keys<K: Sink>(page: &mut Page, sink: &mut K, keys: &[NewKey]) -> Result<(), Failed>
    ensures wrote { Wrote result (K.held sink.old) page.old (K.held sink.new) page.new (listed new_key_text keys.now) }
    ensures cause { HasCause (K.faults sink.old) (K.faults sink.new) result }
{
    match keys {
        [] => put_text(page, sink, "-"),
        [first, others @ ..] => put_new_key_list(page, sink, first, others),
    }
}

/// Puts keys with a comma before each.
#[tactic(auto, using(byte_port::proofs::Paging::pieces))]
fn put_more_keys<K: Sink>(page: &mut Page, sink: &mut K, keys: &[u32]) -> Result<(), Failed>
    ensures wrote { Wrote result (K.held sink.old) page.old (K.held sink.new) page.new (with_commas decimal keys.now) }
    ensures cause { HasCause (K.faults sink.old) (K.faults sink.new) result }
{
    for key in keys {
        put_number_field(page, sink, ",", *key as u64)?;
    }
    Ok(())
}

/// Puts a key, and others with a comma before each.
#[tactic(auto, using(byte_port::proofs::Paging::pieces))]
fn put_key_list<K: Sink>(
    page: &mut Page,
    sink: &mut K,
    first: u32,
    others: &[u32],
) -> Result<(), Failed>
    ensures wrote { Wrote result (K.held sink.old) page.old (K.held sink.new) page.new (decimal first ++ with_commas decimal others.now) }
    ensures cause { HasCause (K.faults sink.old) (K.faults sink.new) result }
{
    put_number(page, sink, first as u64)?;
    put_more_keys(page, sink, others)
}

/// Puts keys.
fn put_keys<K: Sink>(page: &mut Page, sink: &mut K, keys: &[u32]) -> Result<(), Failed>
    ensures wrote { Wrote result (K.held sink.old) page.old (K.held sink.new) page.new (listed decimal keys.now) }
    ensures cause { HasCause (K.faults sink.old) (K.faults sink.new) result }
{
    match keys {
        [] => put_text(page, sink, "-"),
        [first, others @ ..] => put_key_list(page, sink, *first, others),
    }
}

/// Puts a key for the link of a slot.
#[tactic(auto, using(byte_port::proofs::Paging::pieces))]
fn put_slot_key<K: Sink>(page: &mut Page, sink: &mut K, slot: u8, key: u32) -> Result<(), Failed>
    ensures wrote { Wrote result (K.held sink.old) page.old (K.held sink.new) page.new (slot_key_text slot key) }
    ensures cause { HasCause (K.faults sink.old) (K.faults sink.new) result }
{
    put_number(page, sink, slot as u64)?;
    put_number_field(page, sink, "=", key as u64)
}

/// Puts a comma and a token's key for the link of its slot.
#[tactic(auto, using(byte_port::proofs::Paging::pieces))]
fn put_later_token<K: Sink>(page: &mut Page, sink: &mut K, token: &KeyToken) -> Result<(), Failed>
    ensures wrote { Wrote result (K.held sink.old) page.old (K.held sink.new) page.new (codes "," ++ token_text token.now) }
    ensures cause { HasCause (K.faults sink.old) (K.faults sink.new) result }
{
    put_text(page, sink, ",")?;
    put_slot_key(page, sink, token.number, token.key)
}

/// Puts the keys of tokens for the links of their slots, with a comma before each.
#[tactic(auto, using(byte_port::proofs::Paging::pieces))]
fn put_more_tokens<K: Sink>(
    page: &mut Page,
    sink: &mut K,
    tokens: &[KeyToken],
) -> Result<(), Failed>
    ensures wrote { Wrote result (K.held sink.old) page.old (K.held sink.new) page.new (with_commas token_text tokens.now) }
    ensures cause { HasCause (K.faults sink.old) (K.faults sink.new) result }
{
    for token in tokens {
        put_later_token(page, sink, token)?;
    }
    Ok(())
}

/// Puts the key for the link of a slot, and those of other tokens with a comma before each.
#[tactic(auto, using(byte_port::proofs::Paging::pieces))]
fn put_token_list<K: Sink>(
    page: &mut Page,
    sink: &mut K,
    slot: u8,
    key: u32,
    others: &[KeyToken],
) -> Result<(), Failed>
    ensures wrote { Wrote result (K.held sink.old) page.old (K.held sink.new) page.new (slot_key_text slot key ++ with_commas token_text others.now) }
    ensures cause { HasCause (K.faults sink.old) (K.faults sink.new) result }
{
    put_slot_key(page, sink, slot, key)?;
    put_more_tokens(page, sink, others)
}

/// Puts the number of an RMB behind a word, and its keys.
#[tactic(auto, using(byte_port::proofs::Paging::pieces))]
fn put_rmb_keys<K: Sink>(
    page: &mut Page,
    sink: &mut K,
    word: &str,
    slot: u8,
    first: &KeyToken,
    others: &[KeyToken],
) -> Result<(), Failed>
    ensures wrote { Wrote result (K.held sink.old) page.old (K.held sink.new) page.new (number_field word.now (rmb_at first.now.address) ++ (codes " " ++ (slot_key_text slot first.now.key ++ with_commas token_text others.now))) }
    ensures cause { HasCause (K.faults sink.old) (K.faults sink.new) result }
{
    put_number_field(page, sink, word, first.address / 0x1_0000_0000)?;
    put_text(page, sink, " ")?;
    put_token_list(page, sink, slot, first.key, others)
}

/// Puts an RMB and its keys: first the one for the slot whose link carries the message.
#[tactic(auto, using(byte_port::proofs::Paging::pieces), unfolding(scene_text::specs::PostText::tokens_text))]
fn put_tokens<K: Sink>(
    page: &mut Page,
    sink: &mut K,
    slot: u8,
    others: u8,
    tokens: &[KeyToken],
) -> Result<(), Failed>
    ensures wrote { Wrote result (K.held sink.old) page.old (K.held sink.new) page.new (tokens_text slot others tokens.now) }
    ensures cause { HasCause (K.faults sink.old) (K.faults sink.new) result }
{
    match tokens {
        [] => Ok(()),
        [first, more @ ..] => put_rmb_keys(page, sink, " ", slot, first, front(more, others)),
    }
}

/// Puts a message's word, whether it is a reply, and an RMB with its keys.
#[tactic(auto, using(byte_port::proofs::Paging::pieces))]
fn put_rkey<K: Sink>(
    page: &mut Page,
    sink: &mut K,
    word: &str,
    slot: u8,
    reply: bool,
    others: u8,
    tokens: &[KeyToken],
) -> Result<(), Failed>
    ensures wrote { Wrote result (K.held sink.old) page.old (K.held sink.new) page.new (head_text word.now reply ++ tokens_text slot others tokens.now) }
    ensures cause { HasCause (K.faults sink.old) (K.faults sink.new) result }
{
    put_head(page, sink, word, reply)?;
    put_tokens(page, sink, slot, others, tokens)
}

/// Puts a CONFIRM RKEY that the link on a slot carries; one that asks for a retry says no more.
fn put_confirm_rkey<K: Sink>(
    page: &mut Page,
    sink: &mut K,
    slot: u8,
    reply: bool,
    retry: bool,
    others: u8,
    tokens: &[KeyToken],
) -> Result<(), Failed>
    ensures wrote { Wrote result (K.held sink.old) page.old (K.held sink.new) page.new (confirm_rkey_text slot reply retry others tokens.now) }
    ensures cause { HasCause (K.faults sink.old) (K.faults sink.new) result }
{
    if retry {
        put_text(page, sink, " confirm rkey retry")
    } else {
        put_rkey(page, sink, " confirm rkey", slot, reply, others, tokens)
    }
}

/// Puts a message's word, what it answers, and the number of the link that it is about.
#[tactic(auto, using(byte_port::proofs::Paging::pieces))]
fn put_add_link<K: Sink>(
    page: &mut Page,
    sink: &mut K,
    word: &str,
    reply: bool,
    rejected: bool,
    link: u8,
) -> Result<(), Failed>
    ensures wrote { Wrote result (K.held sink.old) page.old (K.held sink.new) page.new (word.now ++ (answer_text reply rejected ++ number_field (codes " ") link)) }
    ensures cause { HasCause (K.faults sink.old) (K.faults sink.new) result }
{
    put_text(page, sink, word)?;
    put_answer(page, sink, reply, rejected)?;
    put_number_field(page, sink, " ", link as u64)
}

/// Puts a message's word, whether it is a reply, the number of the link that it is about, and keys.
#[tactic(auto, using(byte_port::proofs::Paging::pieces))]
fn put_add_keys<K: Sink>(
    page: &mut Page,
    sink: &mut K,
    word: &str,
    reply: bool,
    link: u8,
    keys: &[NewKey],
) -> Result<(), Failed>
    ensures wrote { Wrote result (K.held sink.old) page.old (K.held sink.new) page.new (about_link_text word.now reply link ++ (codes " " ++ listed new_key_text keys.now)) }
    ensures cause { HasCause (K.faults sink.old) (K.faults sink.new) result }
{
    put_about_link(page, sink, word, reply, link)?;
    put_text(page, sink, " ")?;
    put_new_keys(page, sink, keys)
}

/// Puts a message's word, whether it is a reply, and a number.
#[tactic(auto, using(byte_port::proofs::Paging::pieces))]
fn put_test<K: Sink>(
    page: &mut Page,
    sink: &mut K,
    word: &str,
    reply: bool,
    number: u32,
) -> Result<(), Failed>
    ensures wrote { Wrote result (K.held sink.old) page.old (K.held sink.new) page.new (head_text word.now reply ++ number_field (codes " ") number) }
    ensures cause { HasCause (K.faults sink.old) (K.faults sink.new) result }
{
    put_head(page, sink, word, reply)?;
    put_number_field(page, sink, " ", number as u64)
}

/// Puts a message's word, whether it is a reply, and keys.
#[tactic(auto, using(byte_port::proofs::Paging::pieces))]
fn put_named_keys<K: Sink>(
    page: &mut Page,
    sink: &mut K,
    word: &str,
    reply: bool,
    keys: &[u32],
) -> Result<(), Failed>
    ensures wrote { Wrote result (K.held sink.old) page.old (K.held sink.new) page.new (head_text word.now reply ++ (codes " " ++ listed decimal keys.now)) }
    ensures cause { HasCause (K.faults sink.old) (K.faults sink.new) result }
{
    put_head(page, sink, word, reply)?;
    put_text(page, sink, " ")?;
    put_keys(page, sink, keys)
}

/// Puts what an LLC message says that the link on a slot carries.
fn put_llc_post<K: Sink>(
    page: &mut Page,
    sink: &mut K,
    slot: u8,
    message: &LlcMessage,
) -> Result<(), Failed>
    ensures wrote { Wrote result (K.held sink.old) page.old (K.held sink.new) page.new (llc_post_text slot message.now) }
    ensures cause { HasCause (K.faults sink.old) (K.faults sink.new) result }
{
    match message {
        LlcMessage::ConfirmLink { reply, link, .. } => {
            put_about_link(page, sink, " confirm link", *reply, *link)
        }
        LlcMessage::AddLink {
            reply,
            rejected,
            link,
            ..
        } => put_add_link(page, sink, " add link", *reply, *rejected, *link),
        LlcMessage::AddKeys {
            reply,
            link,
            count,
            keys,
        } => put_add_keys(page, sink, " add keys", *reply, *link, front(keys, *count)),
        LlcMessage::DeleteLink { reply, link, .. } => {
            put_about_link(page, sink, " delete link", *reply, *link)
        }
        LlcMessage::ConfirmRkey {
            reply,
            retry,
            others,
            tokens,
            ..
        } => put_confirm_rkey(page, sink, slot, *reply, *retry, *others, tokens),
        LlcMessage::TestLink { reply, bytes } => {
            put_test(page, sink, " test link", *reply, BigEndian::read_u32(bytes))
        }
        LlcMessage::DeleteRkey {
            reply,
            count,
            keys,
            ..
        } => put_named_keys(page, sink, " delete rkey", *reply, front(keys, *count)),
    }
}

/// Puts the sender and the socket of a CLC message.
#[tactic(auto, using(byte_port::proofs::Paging::pieces), unfolding(scene_text::specs::PostText::on_socket_text))]
fn put_on_socket<K: Sink>(
    page: &mut Page,
    sink: &mut K,
    names: &[String],
    from: Side,
    s: u32,
) -> Result<(), Failed>
    ensures wrote { Wrote result (K.held sink.old) page.old (K.held sink.new) page.new (on_socket_text (names_of names.now) from s) }
    ensures cause { HasCause (K.faults sink.old) (K.faults sink.new) result }
{
    put_text(page, sink, "clc ")?;
    put_side(page, sink, from)?;
    put_text(page, sink, " ")?;
    put_name(page, sink, names, s)
}

/// Puts the link that an offer is about.
fn put_offer_link<K: Sink>(
    page: &mut Page,
    sink: &mut K,
    link: Option<LinkId>,
) -> Result<(), Failed>
    ensures wrote { Wrote result (K.held sink.old) page.old (K.held sink.new) page.new (offer_link_text link) }
    ensures cause { HasCause (K.faults sink.old) (K.faults sink.new) result }
{
    match link {
        None => put_text(page, sink, "-"),
        Some(link) => put_link(page, sink, link),
    }
}

/// Puts the element that an offer lends.
#[tactic(auto, using(byte_port::proofs::Paging::pieces), unfolding(scene_text::specs::PostText::lent_text))]
fn put_lent<K: Sink>(page: &mut Page, sink: &mut K, offer: &Offer) -> Result<(), Failed>
    ensures wrote { Wrote result (K.held sink.old) page.old (K.held sink.new) page.new (lent_text offer.now) }
    ensures cause { HasCause (K.faults sink.old) (K.faults sink.new) result }
{
    put_two_numbers(
        page,
        sink,
        " key ",
        offer.key as u64,
        " rmb ",
        offer.address / 0x1_0000_0000,
    )?;
    put_two_numbers(
        page,
        sink,
        " index ",
        offer.index as u64,
        " token ",
        offer.token as u64,
    )
}

/// Puts the link that an offer is about, and the element that it lends.
#[tactic(auto, using(byte_port::proofs::Paging::pieces))]
fn put_offer_about<K: Sink>(
    page: &mut Page,
    sink: &mut K,
    word: &str,
    link: Option<LinkId>,
    offer: &Offer,
) -> Result<(), Failed>
    ensures wrote { Wrote result (K.held sink.old) page.old (K.held sink.new) page.new (word.now ++ (offer_link_text link ++ lent_text offer.now)) }
    ensures cause { HasCause (K.faults sink.old) (K.faults sink.new) result }
{
    put_text(page, sink, word)?;
    put_offer_link(page, sink, link)?;
    put_lent(page, sink, offer)
}

/// Puts what an Accept or a Confirm says.
#[tactic(auto, using(byte_port::proofs::Paging::pieces))]
fn put_offer_post<K: Sink>(
    page: &mut Page,
    sink: &mut K,
    word: &str,
    link: Option<LinkId>,
    offer: &Offer,
) -> Result<(), Failed>
    ensures wrote { Wrote result (K.held sink.old) page.old (K.held sink.new) page.new (offer_post_text word.now link offer.now) }
    ensures cause { HasCause (K.faults sink.old) (K.faults sink.new) result }
{
    put_text(page, sink, word)?;
    put_contact(page, sink, offer.first)?;
    put_offer_about(page, sink, " ", link, offer)
}

/// Puts a word and why a handshake is declined.
#[tactic(auto, using(byte_port::proofs::Paging::pieces))]
fn put_decline<K: Sink>(
    page: &mut Page,
    sink: &mut K,
    word: &str,
    refusal: &Refusal,
) -> Result<(), Failed>
    ensures wrote { Wrote result (K.held sink.old) page.old (K.held sink.new) page.new (number_field word.now refusal.now.diagnosis ++ flag_text (codes " out of synch") refusal.now.out) }
    ensures cause { HasCause (K.faults sink.old) (K.faults sink.new) result }
{
    put_number_field(page, sink, word, refusal.diagnosis as u64)?;
    put_flag(page, sink, " out of synch", refusal.out)
}

/// Puts what a CLC message says.
fn put_clc_post<K: Sink>(
    page: &mut Page,
    sink: &mut K,
    link: Option<LinkId>,
    message: &ClcMessage,
) -> Result<(), Failed>
    ensures wrote { Wrote result (K.held sink.old) page.old (K.held sink.new) page.new (clc_post_text link message.now) }
    ensures cause { HasCause (K.faults sink.old) (K.faults sink.new) result }
{
    match message {
        ClcMessage::Proposal(_) => put_text(page, sink, " proposal"),
        ClcMessage::Accept(offer) => put_offer_post(page, sink, " accept", link, offer),
        ClcMessage::Confirm(offer) => put_offer_post(page, sink, " confirm", link, offer),
        ClcMessage::Decline(refusal) => put_decline(page, sink, " decline ", refusal),
    }
}

/// Puts a remote write.
#[tactic(auto, using(byte_port::proofs::Paging::pieces))]
fn put_write_post<K: Sink>(
    page: &mut Page,
    sink: &mut K,
    word: &str,
    from: Side,
    link: LinkId,
    key: u32,
    address: u64,
    len: u32,
) -> Result<(), Failed>
    ensures wrote { Wrote result (K.held sink.old) page.old (K.held sink.new) page.new (on_link_text word.now from link ++ write_text key address len) }
    ensures cause { HasCause (K.faults sink.old) (K.faults sink.new) result }
{
    put_on_link(page, sink, word, from, link)?;
    put_write(page, sink, key, address, len)
}

/// Puts a CDC message with its link.
#[tactic(auto, using(byte_port::proofs::Paging::pieces))]
fn put_cdc<K: Sink>(
    page: &mut Page,
    sink: &mut K,
    word: &str,
    from: Side,
    link: LinkId,
    message: &CdcMessage,
) -> Result<(), Failed>
    ensures wrote { Wrote result (K.held sink.old) page.old (K.held sink.new) page.new (on_link_text word.now from link ++ cdc_post_text message.now) }
    ensures cause { HasCause (K.faults sink.old) (K.faults sink.new) result }
{
    put_on_link(page, sink, word, from, link)?;
    put_cdc_post(page, sink, message)
}

/// Puts an LLC message with its link.
#[tactic(auto, using(byte_port::proofs::Paging::pieces))]
fn put_llc<K: Sink>(
    page: &mut Page,
    sink: &mut K,
    word: &str,
    from: Side,
    link: LinkId,
    message: &LlcMessage,
) -> Result<(), Failed>
    ensures wrote { Wrote result (K.held sink.old) page.old (K.held sink.new) page.new (on_link_text word.now from link ++ llc_post_text link.slot message.now) }
    ensures cause { HasCause (K.faults sink.old) (K.faults sink.new) result }
{
    put_on_link(page, sink, word, from, link)?;
    put_llc_post(page, sink, link.slot, message)
}

/// Puts a CLC message with its socket and the link that it is about.
#[tactic(auto, using(byte_port::proofs::Paging::pieces))]
fn put_clc<K: Sink>(
    page: &mut Page,
    sink: &mut K,
    names: &[String],
    from: Side,
    s: u32,
    link: Option<LinkId>,
    message: &ClcMessage,
) -> Result<(), Failed>
    ensures wrote { Wrote result (K.held sink.old) page.old (K.held sink.new) page.new (on_socket_text (names_of names.now) from s ++ clc_post_text link message.now) }
    ensures cause { HasCause (K.faults sink.old) (K.faults sink.new) result }
{
    put_on_socket(page, sink, names, from, s)?;
    put_clc_post(page, sink, link, message)
}

/// Puts a post; `names` are those of the sockets.
pub fn put_post<K: Sink>(
    page: &mut Page,
    sink: &mut K,
    names: &[String],
    post: &Post,
) -> Result<(), Failed>
    ensures wrote { Wrote result (K.held sink.old) page.old (K.held sink.new) page.new (post_text (names_of names.now) post.now) }
    ensures cause { HasCause (K.faults sink.old) (K.faults sink.new) result }
{
    match post {
        Post::Write {
            from,
            link,
            key,
            address,
            len,
        } => put_write_post(page, sink, "write ", *from, *link, *key, *address, *len),
        Post::Cdc {
            from,
            link,
            message,
        } => put_cdc(page, sink, "cdc ", *from, *link, message),
        Post::Llc {
            from,
            link,
            message,
        } => put_llc(page, sink, "llc ", *from, *link, message),
        Post::Clc {
            from,
            s,
            link,
            message,
        } => put_clc(page, sink, names, *from, *s, *link, message),
    }
}

/// Puts the line of a post.
#[tactic(auto, using(byte_port::proofs::Paging::pieces))]
fn put_post_line<K: Sink>(
    page: &mut Page,
    sink: &mut K,
    names: &[String],
    post: &Post,
) -> Result<(), Failed>
    ensures wrote { Wrote result (K.held sink.old) page.old (K.held sink.new) page.new (post_line (names_of names.now) post.now) }
    ensures cause { HasCause (K.faults sink.old) (K.faults sink.new) result }
{
    put_text(page, sink, "  ")?;
    put_post(page, sink, names, post)?;
    put_text(page, sink, "\n")
}

/// Puts the lines of posts.
#[tactic(auto, using(byte_port::proofs::Paging::pieces))]
pub fn put_posts<K: Sink>(
    page: &mut Page,
    sink: &mut K,
    names: &[String],
    posts: &[Post],
) -> Result<(), Failed>
    ensures wrote { Wrote result (K.held sink.old) page.old (K.held sink.new) page.new (flat_map (post_line (names_of names.now)) posts.now) }
    ensures cause { HasCause (K.faults sink.old) (K.faults sink.new) result }
{
    for post in posts {
        put_post_line(page, sink, names, post)?;
    }
    Ok(())
}

//! The printer: it puts the text of a history on a page.
ghost use Rattle.std.specs.Prelude.{◌≡◌, ◌++◌, ◌+◌, ◌<◌, ◌≤◌, ◌^◌, ℕ, OnOk, IfOk, [], codes, length};
ghost use Rattle.std.specs.List.{sum_by, flat_map};
ghost use Rattle.std.specs.Fmt.{decimal};
ghost use Rattle.byte_port.specs.Causes.{HasCause};
ghost use Rattle.byte_port.specs.Pages.{Wrote};
ghost use Rattle.scene_text.specs.HistoryText.{actor_text, who_text, what_text, entry_text, entries_text, socket_of, begins_socket, listed_with, listed_after, sockets_after, taken_by, handed_by, socket_text, end_line, history_text};
ghost use Rattle.smcr_calls.specs.Prints.{names_of, printed};
ghost use Rattle.smcr_calls.specs.Shares.{caller, share_of, shares_of, wrote_in, read_in, shared_sums_text, shared_end_text, shared_ends_text, shared_socket_text, IsListed};

use crate::fields::put_two_numbers;
use crate::print_posts::put_posts;
use crate::print_replies::put_reply;
use crate::spell::{put_event, put_name, put_number, put_text};
use byte_port::{Failed, Page, Sink};
use pipe_model::{End, Entry, Event, Reply, Side, StepFault};
use std::alloc::{AllocError, Global};

/// What the text of a history needs besides its entries.
#[derive(Clone, Copy)]
pub struct Texts<'a> {
    pub names: &'a [String],
    pub actors: &'a [String],
    pub payload: &'a [u8],
    pub heard: &'a [u8],
}

/// Puts the name of an actor.
#[tactic(auto, using(byte_port::proofs::Paging::pieces))]
fn put_actor<K: Sink>(
    page: &mut Page,
    sink: &mut K,
    actors: &[String],
    actor: u32,
) -> Result<(), Failed>
    ensures wrote { Wrote result (K.held sink.old) page.old (K.held sink.new) page.new (actor_text (names_of actors.now) actor) }
    ensures cause { HasCause (K.faults sink.old) (K.faults sink.new) result }
{
    if actor == 0 {
        put_text(page, sink, "main")
    } else {
        put_name(page, sink, actors, actor - 1)
    }
}

/// Puts the number of an entry and the name of its actor.
#[tactic(auto, using(byte_port::proofs::Paging::pieces))]
fn put_who<K: Sink>(
    page: &mut Page,
    sink: &mut K,
    actors: &[String],
    number: u64,
    actor: u32,
) -> Result<(), Failed>
    ensures wrote { Wrote result (K.held sink.old) page.old (K.held sink.new) page.new (who_text (names_of actors.now) number actor) }
    ensures cause { HasCause (K.faults sink.old) (K.faults sink.new) result }
{
    put_number(page, sink, number)?;
    put_text(page, sink, " ")?;
    put_actor(page, sink, actors, actor)?;
    put_text(page, sink, " ")
}

/// Puts an event and its reply.
#[tactic(auto, using(byte_port::proofs::Paging::pieces))]
fn put_what<K: Sink>(
    page: &mut Page,
    sink: &mut K,
    texts: &Texts<'_>,
    entry: &Entry,
) -> Result<(), Failed>
    ensures wrote { Wrote result (K.held sink.old) page.old (K.held sink.new) page.new (what_text (printed texts.now) entry.now) }
    ensures cause { HasCause (K.faults sink.old) (K.faults sink.new) result }
{
    put_event(page, sink, texts.names, texts.payload, entry.event)?;
    put_text(page, sink, ": ")?;
    put_reply(page, sink, texts.heard, entry.reply)?;
    put_text(page, sink, "\n")
}

/// Puts the line of an entry, and one for each of its posts.
#[tactic(auto, using(byte_port::proofs::Paging::pieces))]
pub fn put_entry<K: Sink>(
    page: &mut Page,
    sink: &mut K,
    texts: &Texts<'_>,
    number: u64,
    entry: &Entry,
) -> Result<(), Failed>
    ensures wrote { Wrote result (K.held sink.old) page.old (K.held sink.new) page.new (entry_text (printed texts.now) number entry.now) }
    ensures cause { HasCause (K.faults sink.old) (K.faults sink.new) result }
{
    put_who(page, sink, texts.actors, number, entry.actor)?;
    put_what(page, sink, texts, entry)?;
    put_posts(page, sink, texts.names, entry.posts.as_slice())
}

/// Puts the lines of all entries.
#[tactic(auto, using(byte_port::proofs::Paging::pieces))]
fn put_entries<K: Sink>(
    page: &mut Page,
    sink: &mut K,
    texts: &Texts<'_>,
    history: &[Entry],
) -> Result<(), Failed>
    ensures wrote { Wrote result (K.held sink.old) page.old (K.held sink.new) page.new (entries_text (printed texts.now) 1 history.now) }
    ensures cause { HasCause (K.faults sink.old) (K.faults sink.new) result }
{
    for (index, entry) in history.iter().enumerate() {
        put_entry(page, sink, texts, index as u64 + 1, entry)?;
    }
    Ok(())
}

/// The socket that an event names.
fn socket(event: Event) -> Option<u32>
    ensures { result ≡ socket_of event }
{
    match event {
        Event::Open(s) | Event::Raw { s, .. } | Event::Clc { s, .. } => Some(s),
        Event::Write { end, .. }
        | Event::Read { end, .. }
        | Event::Finish(end)
        | Event::Close(end)
        | Event::Abort(end)
        | Event::Await(end)
        | Event::Move(end) => Some(end.s),
        _ => None,
    }
}

/// Whether the socket that an event names comes into being with its entry, or is declined there.
fn begins_socket(entry: &Entry) -> bool
    ensures { result ≡ begins_socket entry.now.event entry.now.reply }
{
    match (entry.event, entry.reply) {
        (_, Reply::Opened | Reply::Declined(_)) => true,
        (Event::Raw { .. }, Reply::Wrote(_)) => true,
        _ => false,
    }
}

/// Lists the socket that comes into being with an entry, if one does and it isn't listed.
fn list(sockets: &mut Vec<u32>, entry: &Entry) -> Result<(), AllocError>
    ensures { OnOk result (sockets.new.items ≡ listed_after sockets.old.items entry.now) }
{
    if begins_socket(entry) {
        if let Some(s) = socket(entry.event) {
            if !sockets.contains(&s) {
                sockets.push(s)?;
            }
        }
    }
    Ok(())
}

/// The sockets in the order in which they came into being.
fn list_sockets(alloc: Global, history: &[Entry]) -> Result<Vec<u32>, AllocError>
    ensures { IfOk result (λ sockets. sockets.items ≡ sockets_after [] history.now) }
{
    let mut sockets = Vec::new(alloc);
    for entry in history {
        list(&mut sockets, entry)?;
    }
    Ok(sockets)
}

/// The end on which an event is a call; the bytes of a raw client count as A's.
fn caller(event: Event) -> Option<End>
    ensures { result ≡ caller event }
{
    match event {
        Event::Raw { s, .. } => Some(End { side: Side::A, s }),
        Event::Write { end, .. } | Event::Read { end, .. } => Some(end),
        _ => None,
    }
}

/// How many bytes a reply says were taken.
fn taken(reply: Reply) -> u32
    ensures { result ≡ taken_by reply }
{
    match reply {
        Reply::Wrote(n) => n,
        _ => 0,
    }
}

/// How many bytes a reply says were handed out.
fn handed(reply: Reply) -> u32
    ensures { result ≡ handed_by reply }
{
    match reply {
        Reply::Bytes { len, .. } => len,
        _ => 0,
    }
}

/// What one entry took from the application at an end, and handed to it. A history's shares are far
/// smaller than its entries, so each socket's sums are cheap.
#[derive(Clone, Copy)]
pub struct Share {
    pub end: End,
    pub wrote: u32,
    pub read: u32,
}

/// Lists the share of an entry that is a call.
fn push_share(shares: &mut Vec<Share>, entry: &Entry) -> Result<(), AllocError>
    ensures { OnOk result (shares.new.items ≡ shares.old.items ++ share_of entry.now) }
{
    if let Some(end) = caller(entry.event) {
        shares.push(Share {
            end,
            wrote: taken(entry.reply),
            read: handed(entry.reply),
        })?;
    }
    Ok(())
}

/// The shares of a history.
fn list_shares(alloc: Global, history: &[Entry]) -> Result<Vec<Share>, AllocError>
    ensures { IfOk result (λ shares. shares.items ≡ shares_of history.now) }
{
    let mut shares = Vec::new(alloc);
    for entry in history {
        push_share(&mut shares, entry)?;
    }
    Ok(shares)
}

/// The bytes of a share that were taken at an end.
fn wrote(side: Side, s: u32, share: &Share) -> u32
    ensures { result ≡ wrote_in side s share.now }
{
    if side == share.end.side && share.end.s == s {
        share.wrote
    } else {
        0
    }
}

/// The bytes of a share that were handed out at an end.
fn read(side: Side, s: u32, share: &Share) -> u32
    ensures { result ≡ read_in side s share.now }
{
    if side == share.end.side && share.end.s == s {
        share.read
    } else {
        0
    }
}

/// All bytes that the application wrote at an end.
fn wrote_in_all(side: Side, s: u32, shares: &[Share]) -> u64
    requires { length shares.now < 2 ^ 32 }
    ensures { result ≡ sum_by (wrote_in side s) shares.now }
{
    shares
        .iter()
        .map(|share| wrote(side, s, share) as u64)
        .sum()
}

/// All bytes that the application read at an end.
fn read_in_all(side: Side, s: u32, shares: &[Share]) -> u64
    requires { length shares.now < 2 ^ 32 }
    ensures { result ≡ sum_by (read_in side s) shares.now }
{
    shares.iter().map(|share| read(side, s, share) as u64).sum()
}

/// Puts what an end wrote and read in all.
#[tactic(auto, using(byte_port::proofs::Paging::pieces))]
fn put_sums<K: Sink>(
    page: &mut Page,
    sink: &mut K,
    shares: &[Share],
    side: Side,
    s: u32,
) -> Result<(), Failed>
    requires { length shares.now < 2 ^ 32 }
    ensures wrote { Wrote result (K.held sink.old) page.old (K.held sink.new) page.new (shared_sums_text shares.now side s) }
    ensures cause { HasCause (K.faults sink.old) (K.faults sink.new) result }
{
    let wrote = wrote_in_all(side, s, shares);
    let read = read_in_all(side, s, shares);
    put_two_numbers(page, sink, " wrote ", wrote, " read ", read)
}

/// Puts the letter of an end, and what it wrote and read in all.
#[tactic(auto, using(byte_port::proofs::Paging::pieces), unfolding(crate::specs::Shares::shared_end_text))]
fn put_end_sums<K: Sink>(
    page: &mut Page,
    sink: &mut K,
    word: &str,
    shares: &[Share],
    side: Side,
    s: u32,
) -> Result<(), Failed>
    requires { length shares.now < 2 ^ 32 }
    ensures wrote { Wrote result (K.held sink.old) page.old (K.held sink.new) page.new (shared_end_text word.now shares.now side s) }
    ensures cause { HasCause (K.faults sink.old) (K.faults sink.new) result }
{
    put_text(page, sink, word)?;
    put_sums(page, sink, shares, side, s)
}

/// Puts the sums of both ends of a socket, and ends its line.
#[tactic(auto, using(byte_port::proofs::Paging::pieces), unfolding(crate::specs::Shares::shared_ends_text))]
fn put_both_sums<K: Sink>(
    page: &mut Page,
    sink: &mut K,
    shares: &[Share],
    s: u32,
) -> Result<(), Failed>
    requires { length shares.now < 2 ^ 32 }
    ensures wrote { Wrote result (K.held sink.old) page.old (K.held sink.new) page.new (shared_ends_text shares.now s) }
    ensures cause { HasCause (K.faults sink.old) (K.faults sink.new) result }
{
    put_end_sums(page, sink, " A", shares, Side::A, s)?;
    put_end_sums(page, sink, " B", shares, Side::B, s)?;
    put_text(page, sink, "\n")
}

/// Puts the line of a socket: its name, and the sums of its ends.
#[tactic(auto, using(byte_port::proofs::Paging::pieces))]
fn put_socket<K: Sink>(
    page: &mut Page,
    sink: &mut K,
    names: &[String],
    shares: &[Share],
    s: u32,
) -> Result<(), Failed>
    requires { length shares.now < 2 ^ 32 }
    ensures wrote { Wrote result (K.held sink.old) page.old (K.held sink.new) page.new (shared_socket_text (names_of names.now) shares.now s) }
    ensures cause { HasCause (K.faults sink.old) (K.faults sink.new) result }
{
    put_text(page, sink, "socket ")?;
    put_name(page, sink, names, s)?;
    put_both_sums(page, sink, shares, s)
}

/// Puts the lines of sockets.
#[tactic(auto, using(byte_port::proofs::Paging::pieces))]
fn put_sockets<K: Sink>(
    page: &mut Page,
    sink: &mut K,
    names: &[String],
    shares: &[Share],
    sockets: &[u32],
) -> Result<(), Failed>
    requires { length shares.now < 2 ^ 32 }
    ensures wrote { Wrote result (K.held sink.old) page.old (K.held sink.new) page.new (flat_map (shared_socket_text (names_of names.now) shares.now) sockets.now) }
    ensures cause { HasCause (K.faults sink.old) (K.faults sink.new) result }
{
    for s in sockets {
        put_socket(page, sink, names, shares, *s)?;
    }
    Ok(())
}

/// Puts a line of a text and a number.
#[tactic(auto, using(byte_port::proofs::Paging::pieces))]
fn put_count<K: Sink>(page: &mut Page, sink: &mut K, text: &str, count: u64) -> Result<(), Failed>
    ensures wrote { Wrote result (K.held sink.old) page.old (K.held sink.new) page.new (text.now ++ (decimal count ++ codes "\n")) }
    ensures cause { HasCause (K.faults sink.old) (K.faults sink.new) result }
{
    put_text(page, sink, text)?;
    put_number(page, sink, count)?;
    put_text(page, sink, "\n")
}

/// Puts the last line: how the run ended.
#[tactic(auto, using(byte_port::proofs::Paging::pieces))]
fn put_end_line<K: Sink>(
    page: &mut Page,
    sink: &mut K,
    entries: usize,
    stop: Option<StepFault>,
) -> Result<(), Failed>
    ensures wrote { Wrote result (K.held sink.old) page.old (K.held sink.new) page.new (end_line entries stop) }
    ensures cause { HasCause (K.faults sink.old) (K.faults sink.new) result }
{
    match stop {
        None => put_count(page, sink, "ok ", entries as u64),
        Some(StepFault::Spent { entries }) => {
            put_count(page, sink, "spent entries ", entries as u64)
        }
        Some(StepFault::BytesSpent { bytes }) => {
            put_count(page, sink, "spent bytes ", bytes as u64)
        }
    }
}

/// The sockets of a history in their order, and the shares of their ends: what the lines of sockets
/// need, and all that takes memory in a history's text.
#[derive(Drop)]
pub struct Listed {
    pub sockets: Vec<u32>,
    pub shares: Vec<Share>,
}

/// Lists the sockets of a history and the shares of their ends.
pub fn list_all(alloc: Global, history: &[Entry]) -> Result<Listed, AllocError>
    ensures { IfOk result (λ listed. IsListed listed history.now) }
{
    let sockets = list_sockets(alloc, history)?;
    let shares = list_shares(alloc, history)?;
    Ok(Listed { sockets, shares })
}

/// Puts the lines of all sockets that a history has.
#[tactic(auto, using(byte_port::proofs::Paging::pieces, crate::proofs::Shares::few_shares, crate::proofs::Shares::same_sockets))]
fn put_all_sockets<K: Sink>(
    page: &mut Page,
    sink: &mut K,
    names: &[String],
    history: &[Entry],
    listed: &Listed,
) -> Result<(), Failed>
    requires few { length history.now < 2 ^ 32 }
    requires listed { IsListed listed.now history.now }
    ensures wrote { Wrote result (K.held sink.old) page.old (K.held sink.new) page.new (flat_map (socket_text (names_of names.now) history.now) (sockets_after [] history.now)) }
    ensures cause { HasCause (K.faults sink.old) (K.faults sink.new) result }
{
    put_sockets(page, sink, names, &listed.shares, &listed.sockets)
}

/// Puts the text of a history: its entries, its sockets, how it ended.
#[tactic(auto, using(byte_port::proofs::Paging::pieces))]
pub fn put_history<K: Sink>(
    page: &mut Page,
    sink: &mut K,
    texts: &Texts<'_>,
    history: &[Entry],
    listed: &Listed,
    stop: Option<StepFault>,
) -> Result<(), Failed>
    requires few { length history.now < 2 ^ 32 }
    requires listed { IsListed listed.now history.now }
    ensures wrote { Wrote result (K.held sink.old) page.old (K.held sink.new) page.new (history_text (printed texts.now) history.now stop) }
    ensures cause { HasCause (K.faults sink.old) (K.faults sink.new) result }
{
    put_entries(page, sink, texts, history)?;
    put_all_sockets(page, sink, texts.names, history, listed)?;
    put_end_line(page, sink, history.len(), stop)
}

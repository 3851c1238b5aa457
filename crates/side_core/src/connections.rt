//! The connections of one side: a record for each socket to which an element is lent.
//!
//! A record is found by its socket, by the token that this side gave the connection, and by the peer's.
//! No call after `new` takes memory, and each costs the same whatever the number of sockets and records.
ghost use Rattle.std.specs.Prelude.{◌≡◌, ◌+◌, ◌<◌, ◌≤◌, ◌^◌, ◌++◌, ℕ, List, Some, None, IfOk, IsSome, All, take as front, drop, length, option_map, vec_capacity};
ghost use Rattle.smc_num.specs.declared.LinkId.{LinkId as Link};
ghost use Rattle.smc_num.specs.Places.{rmb_at};
ghost use Rattle.pipe_model.specs.Ends.{Half, comes_up};
ghost use Rattle.pipe_model.specs.Calls.{Reads};
ghost use Rattle.conn_end.specs.Told.{Answers};
ghost use Rattle.side_core.specs.Records.{Records, AllStand, IsSmall, no_records, conn_at, half_at, route_at, link_at, holder, aimer, settles, begins, aims, rises, leaves};
ghost use Rattle.side_core.specs.Inside.{IsMade, made_with, socket_named as named_by};
ghost use Rattle.side_core.specs.Posting.{IsWay, posts_at};
ghost use Rattle.side_core.specs.Changes.{MayComeAt, MakesAt, Tells};
ghost use Rattle.side_core.specs.Comings.{MayGo, IsGoingAt};

use crate::change::Change;
use crate::record::{Record, element_start};
use crate::route::{Route, Way};
use crate::shelf::Shelf;
use arrayvec::ArrayVec;
use clc_wire::Offer;
use conn_end::{ConnEnd, EndReply, Piece};
use element_ledger::Element;
use pipe_model::{Post, Snapshot};
use smc_num::{LinkId, NoMemory};
use std::alloc::Global;
use std::marker::Model;

/// The connections of one side. Contracts see the records by socket, with what is kept of each end, and
/// say for which plain records, whose ends are those of the private pipes, these stand.
#[derive(Drop)]
pub struct Connections {
    // What every end is made with.
    size: u32,
    depth: u8,
    number: u16,
    records: Shelf,
    // The sockets by the tokens that this side gave, from token 1 on.
    by_token: Vec<u32>,
    // The sockets by the peer's tokens, from token 1 on.
    by_peer: Vec<u32>,
    // The ends that are in no record.
    idle: Vec<ConnEnd>,
}

impl Model for Connections {
    ghost use Rattle.std.specs.Prelude.{vec_capacity};
    ghost use Rattle.conn_end.specs.Kept.{Kept};
    ghost use Rattle.side_core.specs.Records.{Records};
    ghost use Rattle.side_core.specs.Inside.{IsTable, made_with, records_of};

    ghost Value = { Records Kept };

    ghost view = { λ c. records_of (made_with c.size c.depth c.number) c.records c.by_token.items c.idle.items };

    ghost invariant = { λ c. IsTable (made_with c.size c.depth c.number) c.records c.by_token.items c.by_peer.items c.idle.items (vec_capacity c.by_token) (vec_capacity c.idle) };
}

impl Connections {
    /// No connections, of so many sockets, with room for `most`. The elements have `size` bytes, at most
    /// `depth` snapshots of an end may be uncompleted, 8 at most, and `number` is that of its first one.
    pub fn new(
        alloc: Global,
        sockets: u32,
        most: u16,
        size: u32,
        depth: u8,
        number: u16,
    ) -> Result<Connections, NoMemory>
        requires size { 1 ≤ size }
        requires depth { depth ≤ 8 }
        ensures none { IfOk result (λ v. v ≡ no_records (made_with size depth number) sockets most) }
        ensures plain { IfOk result (λ v. AllStand v (no_records (made_with size depth number) sockets most)) }
    {
        let records = Shelf::new(alloc, sockets, most)?;
        let Ok(by_token) = Vec::with_capacity(alloc, sockets as usize) else {
            return Err(NoMemory);
        };
        let by_peer = no_sockets(alloc, sockets)?;
        let idle = idle_ends(alloc, records.capacity(), most, size, depth, number)?;
        Ok(Connections {
            size,
            depth,
            number,
            records,
            by_token,
            by_peer,
            idle,
        })
    }

    /// How many tokens this side has given.
    pub fn tokens(&self) -> u32
        requires { self.now.tokens < 2 ^ 32 }
        ensures { result ≡ self.now.tokens }
    {
        self.by_token.len() as u32
    }

    /// The route of a socket's connection.
    pub fn route(&self, s: u32) -> Option<Route>
        ensures { result ≡ route_at s self.now }
    {
        let record = self.records.get(s)?;
        Some(record.route)
    }

    /// The socket whose connection a token of this side names.
    pub fn holder(&self, token: u32) -> Option<u32>
        ensures { result ≡ holder token self.now }
    {
        let s = socket_named(token, &self.by_token)?;
        let record = self.records.get(s)?;
        if record.route.token == token {
            return Some(s);
        }
        None
    }

    /// The socket whose messages carry a token of the peer.
    pub fn aimer(&self, token: u32) -> Option<u32>
        ensures { result ≡ aimer token self.now }
    {
        let s = socket_named(token, &self.by_peer)?;
        let record = self.records.get(s)?;
        let offer = record.route.peer?;
        if offer.token == token {
            return Some(s);
        }
        None
    }

    /// A connection begins on a socket that has none, on a link and in an element. Its token is the next one.
    pub fn begin(&mut self, s: u32, link: LinkId, element: Element) -> u32
        requires range { s < length self.old.by_socket }
        requires vacant { conn_at s self.old ≡ None }
        requires spare { 0 < self.old.spare }
        requires tokens { self.old.tokens < length self.old.by_socket }
        requires sockets { length self.old.by_socket < 2 ^ 32 }
        ensures token { result ≡ self.old.tokens + 1 }
        ensures begins { (r : Records Half) (live : List Link) → AllStand self.old r → AllStand self.new (begins s link element live r) }
    {
        let Some(mut end) = self.idle.pop() else {
            unreachable!()
        };
        end.start(0);
        self.by_token.push_reserved(s);
        let token = self.by_token.len() as u32;
        let route = Route {
            link,
            up: false,
            element,
            token,
            peer: None,
        };
        self.records.put(s, Record { route, end });
        token
    }

    /// The connection of a socket learns what the peer offers for it.
    pub fn aim(&mut self, s: u32, offer: &Offer)
        requires there { IsSome (conn_at s self.old) }
        requires alone { aimer offer.now.token self.old ≡ None }
        requires some { 1 ≤ offer.now.token }
        requires most { offer.now.token ≤ length self.old.by_socket }
        requires rmb { rmb_at offer.now.address < 256 }
        requires index { 1 ≤ offer.now.index }
        ensures { (r : Records Half) → AllStand self.old r → AllStand self.new (aims s offer.now r) }
    {
        self.by_peer[(offer.token - 1) as usize] = s;
        let record = self.records.get_mut(s);
        record.route.peer = Some(*offer);
        record.end.aim(offer.token);
    }

    /// The connection of a socket is established on the link of its route.
    pub fn rise(&mut self, s: u32, way: Way, posts: &mut ArrayVec<Post, 6>)
        requires there { IsSome (conn_at s self.old) }
        requires small { IsSmall (conn_at s self.old) }
        requires room { length posts.old.items ≤ 3 }
        ensures end { (r : Records Half) → AllStand self.old r → IsWay (comes_up (link_at s self.old)) way (conn_at s r) → AllStand self.new (rises s r) }
        ensures posts { (r : Records Half) → AllStand self.old r → IsWay (comes_up (link_at s self.old)) way (conn_at s r)
            → posts.new.items ≡ posts.old.items ++ posts_at s (comes_up (link_at s self.old)) way r (conn_at s r) }
    {
        let size = self.size;
        self.records.get_mut(s).rise(size, way, posts);
    }

    /// The connection of a socket gives its element back.
    pub fn leave(&mut self, s: u32) -> Element
        requires { IsSome (conn_at s self.old) }
        ensures element { option_map (λ route. route.element) (route_at s self.old) ≡ Some result }
        ensures leaves { (r : Records Half) → AllStand self.old r → AllStand self.new (leaves s r) }
    {
        let Record { route, end } = self.records.take(s);
        self.idle.push_reserved(end);
        route.element
    }

    /// Something happens to the end of a socket, and what is due then is posted. What is no call is
    /// answered with `Done`.
    pub fn change(
        &mut self,
        s: u32,
        change: Change<'_>,
        way: Way,
        posts: &mut ArrayVec<Post, 6>,
    ) -> EndReply
        requires may { MayComeAt change (conn_at s self.old) }
        requires small { IsSmall (conn_at s self.old) }
        requires room { length posts.old.items ≤ 3 }
        ensures end { (r : Records Half) (act : Half → Half) → AllStand self.old r → MakesAt self.old.terms.size change.entry (conn_at s self.old) (conn_at s r) act
            → IsWay act way (conn_at s r) → AllStand self.new (settles s act r) }
        ensures posts { (r : Records Half) (act : Half → Half) → AllStand self.old r → MakesAt self.old.terms.size change.entry (conn_at s self.old) (conn_at s r) act
            → IsWay act way (conn_at s r) → posts.new.items ≡ posts.old.items ++ posts_at s act way r (conn_at s r) }
        ensures told { (r : Records Half) → AllStand self.old r → Tells self.old.terms.size change.entry (half_at s r) result }
    {
        let size = self.size;
        self.records.get_mut(s).change(change, size, way, posts)
    }

    /// What a read of `len` bytes would be told now.
    pub fn would_read(&self, s: u32, len: u32) -> EndReply
        requires { IsSome (conn_at s self.now) }
        ensures { (r : Records Half) → AllStand self.now r → Answers self.now.terms.size (Reads len) (half_at s r) result }
    {
        let Some(record) = self.records.get(s) else {
            unreachable!()
        };
        record.end.would_read(len)
    }

    /// The snapshot against which the end of a socket finds something new.
    pub fn last(&self, s: u32) -> Snapshot
        requires { IsSome (conn_at s self.now) }
        ensures { (r : Records Half) → AllStand self.now r → result ≡ (half_at s r).last }
    {
        let Some(record) = self.records.get(s) else {
            unreachable!()
        };
        record.end.last()
    }

    /// The bytes of a write of the end of a socket, by their address in the peer's element, in two parts.
    pub fn outgoing(&self, s: u32, address: u64, len: u32) -> (&[u8], &[u8])
        requires { MayGo self.now.terms.size (conn_at s self.now) address len }
        ensures { (h : Half) (first : ℕ) → IsGoingAt self.now.terms.size (conn_at s self.now) address len h first
            → result.0.now ++ result.1.now ≡ front len (drop first h.out) }
    {
        let Some(record) = self.records.get(s) else {
            unreachable!()
        };
        let Some(offer) = record.route.peer else {
            unreachable!()
        };
        let place = (address - element_start(&offer, self.size)) as u32;
        record.end.outgoing(Piece { place, len })
    }
}

// The socket that a list of sockets by tokens has for a token.
fn socket_named(token: u32, sockets: &[u32]) -> Option<u32>
    ensures { result ≡ named_by token sockets.now }
{
    if token == 0 {
        return None;
    }
    sockets.get((token - 1) as usize).copied()
}

// No sockets, for so many tokens.
fn no_sockets(alloc: Global, sockets: u32) -> Result<Vec<u32>, NoMemory>
    ensures { IfOk result (λ v. length v.items ≡ sockets) }
{
    vec![in alloc; 0; sockets as usize].map_err(|_| NoMemory)
}

// So many ends, in a list with this room.
fn idle_ends(
    alloc: Global,
    room: usize,
    most: u16,
    size: u32,
    depth: u8,
    number: u16,
) -> Result<Vec<ConnEnd>, NoMemory>
    requires size { 1 ≤ size }
    requires depth { depth ≤ 8 }
    requires room { most ≤ room }
    ensures count { IfOk result (λ ends. length ends.items ≡ most) }
    ensures made { IfOk result (λ ends. All (IsMade (made_with size depth number)) ends.items) }
    ensures room { IfOk result (λ ends. vec_capacity ends ≡ room) }
{
    let Ok(mut ends) = Vec::with_capacity(alloc, room) else {
        return Err(NoMemory);
    };
    for _made in 0..most {
        ends.push_reserved(ConnEnd::new(alloc, size, depth, number)?);
    }
    Ok(ends)
}

//! Each event on the hosts of A and B: what it calls names the host that acts first.
ghost use Rattle.std.specs.Prelude.{◌≡◌, ◌+◌, ◌≤◌, ◌<◌, ◌^◌, ◌++◌, length, vec_len, vec_capacity, []};
ghost use Rattle.smc_num.specs.declared.Side.TheVariants.{A};
ghost use Rattle.pipe_model.specs.Fits.{Fits};
ghost use Rattle.pipe_model.specs.declared.event.Event.TheVariants.{Clc, Write, Read, Deliver, Complete};
ghost use Rattle.pipe_model.specs.Replies.{told};
ghost use Rattle.world_core.specs.Played.{handed};
ghost use Rattle.world_core.specs.Heard.{told_bytes};
ghost use Rattle.world_core.specs.Hosts.{AreHosts, IsPlayedBy, KnowSocket, past_of, paths_after, told_at};
ghost use Rattle.world_core.specs.Leaving.{IsLeaving};

use crate::calls::{due_bytes, read, write};
use crate::handshake::{open, take};
use crate::host::Host;
use crate::link::{complete, deliver};
use crate::moment::Moment;
use arrayvec::ArrayVec;
use pipe_model::{End, Event, Post, Reply, Side};

/// An event on the hosts of A and B.
pub fn act(
    a: &mut Host,
    b: &mut Host,
    moment: Moment<'_>,
    event: Event,
    heard: &mut Vec<u8>,
    posts: &mut ArrayVec<Post, 6>,
) -> Reply
    requires hosts { AreHosts moment A a.old b.old }
    requires few { length moment.history.now < 2 ^ 18 }
    requires fits { Fits moment.setup.now (length moment.payload.now) event }
    requires paths { moment.paths.now ≡ paths_after moment.setup.now (past_of moment) }
    requires before { vec_len heard.old ≡ moment.heard }
    requires room { vec_len heard.old + handed (told_at moment event) ≤ vec_capacity heard.old }
    requires least { vec_len heard.old + handed (told_at moment event) ≤ 2 ^ 26 }
    requires none { posts.old.items ≡ [] }
    ensures played { IsPlayedBy moment.entry event result posts.new.items A a.new b.new }
    ensures heard { heard.new.items ≡ heard.old.items ++ told_bytes (told_at moment.entry event) }
    ensures capacity { vec_capacity heard.old ≤ vec_capacity heard.new }
{
    match event {
        Event::Open(s) => open(a, b, moment, s, posts),
        Event::Clc { s, dir } => take_from(a, b, moment, s, dir, posts),
        Event::Write { end, at, len } => write_at(a, b, moment, end, at, len, posts),
        Event::Read { end, len } => read_at(a, b, moment, end, len, heard, posts),
        _ => move_on(a, b, moment, event, posts),
    }
}

/// A post moves on a link: it lands at the peer of its sender, or completes at its sender.
fn move_on(
    a: &mut Host,
    b: &mut Host,
    moment: Moment<'_>,
    event: Event,
    posts: &mut ArrayVec<Post, 6>,
) -> Reply
    requires hosts { AreHosts moment A a.old b.old }
    requires few { length moment.history.now < 2 ^ 18 }
    requires moves { IsLeaving event }
    requires none { posts.old.items ≡ [] }
    ensures { IsPlayedBy moment.entry event result posts.new.items A a.new b.new }
{
    match event {
        Event::Deliver { slot, dir } => land_from(a, b, moment, slot, dir, posts),
        Event::Complete { slot, dir } => complete_at(a, b, moment, slot, dir, posts),
        _ => unreachable!(),
    }
}

/// The next CLC message of a side is taken by its peer.
fn take_from(
    a: &mut Host,
    b: &mut Host,
    moment: Moment<'_>,
    s: u32,
    dir: Side,
    posts: &mut ArrayVec<Post, 6>,
) -> Reply
    requires hosts { AreHosts moment A a.old b.old }
    requires few { length moment.history.now < 2 ^ 18 }
    requires socket { s < moment.setup.now.sockets }
    requires paths { moment.paths.now ≡ paths_after moment.setup.now (past_of moment) }
    requires none { posts.old.items ≡ [] }
    ensures { IsPlayedBy moment.entry (Clc s dir) result posts.new.items A a.new b.new }
{
    match dir {
        Side::A => take(b, a, moment, s, posts),
        Side::B => take(a, b, moment, s, posts),
    }
}

/// The application of an end writes.
fn write_at(
    a: &mut Host,
    b: &mut Host,
    moment: Moment<'_>,
    end: End,
    at: u32,
    len: u32,
    posts: &mut ArrayVec<Post, 6>,
) -> Reply
    requires hosts { AreHosts moment A a.old b.old }
    requires few { length moment.history.now < 2 ^ 18 }
    requires socket { end.s < moment.setup.now.sockets }
    requires within { at + len ≤ length moment.payload.now }
    requires none { posts.old.items ≡ [] }
    ensures { IsPlayedBy moment.entry (Write end at len) result posts.new.items A a.new b.new }
{
    match end.side {
        Side::A => write(a, moment, end, at, len, posts),
        Side::B => write(b, moment, end, at, len, posts),
    }
}

/// The application of an end reads.
fn read_at(
    a: &mut Host,
    b: &mut Host,
    moment: Moment<'_>,
    end: End,
    len: u32,
    heard: &mut Vec<u8>,
    posts: &mut ArrayVec<Post, 6>,
) -> Reply
    requires hosts { AreHosts moment A a.old b.old }
    requires few { length moment.history.now < 2 ^ 18 }
    requires socket { end.s < moment.setup.now.sockets }
    requires before { vec_len heard.old ≡ moment.heard }
    requires room { vec_len heard.old + handed (told_at moment (Read end len)) ≤ vec_capacity heard.old }
    requires least { vec_len heard.old + handed (told_at moment (Read end len)) ≤ 2 ^ 26 }
    requires none { posts.old.items ≡ [] }
    ensures played { IsPlayedBy moment.entry (Read end len) result posts.new.items A a.new b.new }
    ensures heard { heard.new.items ≡ heard.old.items ++ told_bytes (told_at moment.entry (Read end len)) }
    ensures capacity { vec_capacity heard.old ≤ vec_capacity heard.new }
{
    match end.side {
        Side::A => read(a, b, moment, end, len, heard, posts),
        Side::B => read(b, a, moment, end, len, heard, posts),
    }
}

/// The next post of a side lands at its peer.
fn land_from(
    a: &mut Host,
    b: &mut Host,
    moment: Moment<'_>,
    slot: u8,
    dir: Side,
    posts: &mut ArrayVec<Post, 6>,
) -> Reply
    requires hosts { AreHosts moment A a.old b.old }
    requires few { length moment.history.now < 2 ^ 18 }
    requires slot { slot ≡ 1 }
    requires none { posts.old.items ≡ [] }
    ensures { IsPlayedBy moment.entry (Deliver slot dir) result posts.new.items A a.new b.new }
{
    match dir {
        Side::A => deliver(a, b, moment, slot, posts),
        Side::B => deliver(b, a, moment, slot, posts),
    }
}

/// The oldest landed post of a side completes.
fn complete_at(
    a: &mut Host,
    b: &mut Host,
    moment: Moment<'_>,
    slot: u8,
    dir: Side,
    posts: &mut ArrayVec<Post, 6>,
) -> Reply
    requires hosts { AreHosts moment A a.old b.old }
    requires few { length moment.history.now < 2 ^ 18 }
    requires slot { slot ≡ 1 }
    requires none { posts.old.items ≡ [] }
    ensures { IsPlayedBy moment.entry (Complete slot dir) result posts.new.items A a.new b.new }
{
    match dir {
        Side::A => complete(a, moment, slot, posts),
        Side::B => complete(b, moment, slot, posts),
    }
}

/// How many bytes a read would hand out.
pub fn due_on(a: &Host, b: &Host, end: End, len: u32) -> u32
    requires { KnowSocket end.s A a.now b.now }
    ensures { (k : KnowSocket end.s A a.now b.now) → result ≡ handed (told k.setup k.payload k.past (Read end len)) }
{
    match end.side {
        Side::A => due_bytes(a, b, end, len),
        Side::B => due_bytes(b, a, end, len),
    }
}

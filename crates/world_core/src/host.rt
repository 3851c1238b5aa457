//! One peer with all that goes out from it: its manager, its posts on the link, and its TCP streams.
ghost use Rattle.std.specs.Prelude.{◌≡◌, ◌≤◌, ◌<◌, ◌-◌, length, filter, replicate, slice_set, vec_capacity, if◌then◌else◌, false, true, [], IfOk, OnOk};
ghost use Rattle.clc_wire.specs.Clc.{Fits};
ghost use Rattle.pipe_model.specs.Ends.{Half};
ghost use Rattle.rc_link.specs.Wire.{empty, room_of, with_post};
ghost use Rattle.side_core.specs.Setups.{IsSet};
ghost use Rattle.side_core.specs.Manager.{Manager, Represents, new_manager};
ghost use Rattle.world_core.specs.Hosts.{places_of, wire_at, with_posts};
ghost use Rattle.world_core.specs.Sending.{carried_from, goes_on_wire, outflow_at, posts_one, puts, puts_all, puts_one, still, MaySend, MaySendAll};

use crate::lists::with_room;
use crate::wires::{self, new_wires};
use arrayvec::ArrayVec;
use clc_wire::write_clc;
use pipe_model::{ClcMessage, LinkId, Post, PostRef, Setup, Side, Snapshot};
use rc_link::{InFlight, Wire};
use side_core::SideCore;
use smc_num::NoMemory;
use std::alloc::Global;
use tcp_pipe::Stream;

/// A CLC message that its receiver has not taken, with the link that it is about.
#[derive(Clone, Copy, Debug, PartialEq, Eq)]
pub struct Untaken {
    pub message: ClcMessage,
    pub link: Option<LinkId>,
}

/// What flows out on a socket: its bytes, and the CLC message among them that was not taken.
#[derive(Drop)]
pub struct Outflow {
    pub bytes: Stream,
    pub next: Option<Untaken>,
}

/// One peer with all that goes out from it.
#[derive(Drop)]
pub struct Host {
    pub core: SideCore,
    /// Its posts on each link, by slot from 1 on.
    pub wires: Vec<Wire>,
    /// Its half of the TCP connection of each socket.
    pub flows: Vec<Outflow>,
}

// What stands beside a post that tells nothing.
const NO_SNAPSHOT: Snapshot = Snapshot {
    number: 0,
    told: 0,
    read: 0,
    done: false,
    closed: false,
    aborted: false,
};

impl Host {
    /// A host that nothing concerned. It takes all its memory here.
    pub fn new(alloc: Global, side: Side, setup: &Setup) -> Result<Host, NoMemory>
        requires { IsSet setup.now side }
        ensures core { IfOk result (λ host. Represents host.core (new_manager side setup.now)) }
        ensures wires { IfOk result (λ host. host.wires.items ≡ replicate setup.now.links (empty (places_of setup.now side) false)) }
        ensures flows { IfOk result (λ host. host.flows.items ≡ replicate setup.now.sockets still) }
    {
        let wires = new_wires(alloc, setup.links, places(setup, side))?;
        let flows = no_flows(alloc, setup.sockets)?;
        let core = SideCore::new(alloc, side, setup)?;
        Ok(Host { core, wires, flows })
    }

    /// Sends the posts of an entry: CLC messages into the streams, all others on the wire, each CDC
    /// message with the snapshot that its end posted last.
    pub fn send(&mut self, entry: u32, posts: &[Post])
        requires may { MaySendAll (length self.old.flows.items) self.old.core posts.now }
        requires few { length posts.now ≤ 6 }
        requires room { length (filter goes_on_wire posts.now) ≤ room_of (wire_at 1 self.old) }
        ensures core { self.new.core ≡ self.old.core }
        ensures wire { (m : Manager Half) → Represents self.old.core m → wire_at 1 self.new ≡ with_posts (carried_from m entry 1 posts.now) (wire_at 1 self.old) }
        ensures flows { self.new.flows.items ≡ puts_all posts.now self.old.flows.items }
    {
        let mut place = PostRef { entry, post: 1 };
        for post in posts {
            self.send_one(place, post);
            place.post += 1;
        }
    }

    /// Sends a post of the history.
    fn send_one(&mut self, at: PostRef, post: &Post)
        requires may { MaySend (length self.old.flows.items) self.old.core post.now }
        requires room { goes_on_wire post.now ≡ true → 0 < room_of (wire_at 1 self.old) }
        ensures core { self.new.core ≡ self.old.core }
        ensures wire { (m : Manager Half) → Represents self.old.core m → wire_at 1 self.new ≡ posts_one m at post.now (wire_at 1 self.old) }
        ensures flows { self.new.flows.items ≡ puts_one post.now self.old.flows.items }
        ensures room { room_of (wire_at 1 self.new) ≡ room_of (wire_at 1 self.old) - (if goes_on_wire post.now then 1 else 0) }
    {
        match *post {
            Post::Clc {
                s,
                link,
                message,
                ..
            } => self.say(s, link, &message),
            Post::Cdc { link, message, .. } => {
                let plain = self.core.last(message.token);
                self.carry(link.slot, at, post, plain);
            }
            Post::Write { link, .. } => self.carry(link.slot, at, post, NO_SNAPSHOT),
            Post::Llc { link, .. } => self.carry(link.slot, at, post, NO_SNAPSHOT),
        }
    }

    /// A post goes on the wire of a slot, with the plain snapshot beside it.
    fn carry(&mut self, slot: u8, at: PostRef, post: &Post, plain: Snapshot)
        requires { 0 < room_of (wire_at slot self.old) }
        ensures core { self.new.core ≡ self.old.core }
        ensures wires { self.new.wires.items ≡ slice_set self.old.wires.items (slot - 1) (with_post (record { at = at; post = post.now; plain = plain }) (wire_at slot self.old)) }
        ensures flows { self.new.flows.items ≡ self.old.flows.items }
    {
        wires::post(
            &mut self.wires,
            slot,
            InFlight {
                at,
                post: *post,
                plain,
            },
        );
    }

    /// A CLC message goes into the stream of a socket.
    fn say(&mut self, s: u32, link: Option<LinkId>, message: &ClcMessage)
        requires socket { s < length self.old.flows.items }
        requires fits { Fits message.now }
        ensures core { self.new.core ≡ self.old.core }
        ensures wires { self.new.wires.items ≡ self.old.wires.items }
        ensures flows { self.new.flows.items ≡ slice_set self.old.flows.items s (puts link message.now (outflow_at s self.old.flows.items)) }
    {
        put(&mut self.flows[s as usize], link, message);
    }
}

/// How many posts of a side a link has places for.
fn places(setup: &Setup, side: Side) -> u32
    ensures { result ≡ places_of setup.now side }
{
    let elements = setup.rmbs[side as usize] as u32 * setup.elements[side as usize] as u32;
    elements * (3 * setup.depth as u32 + 1) + 32
}

/// A CLC message goes into a stream, and waits to be taken.
fn put(flow: &mut Outflow, link: Option<LinkId>, message: &ClcMessage)
    requires { Fits message.now }
    ensures { flow.new ≡ puts link message.now flow.old }
{
    let mut bytes = ArrayVec::new();
    write_clc(message, &mut bytes);
    flow.bytes.put(bytes.as_slice());
    flow.next = Some(Untaken {
        message: *message,
        link,
    });
}

/// As many streams in which nothing has flowed.
fn no_flows(alloc: Global, sockets: u32) -> Result<Vec<Outflow>, NoMemory>
    ensures { IfOk result (λ flows. flows.items ≡ replicate sockets still) }
{
    let mut flows = with_room(alloc, sockets)?;
    add_flows(&mut flows, alloc, sockets)?;
    Ok(flows)
}

/// Adds as many, for which there is room.
fn add_flows(flows: &mut Vec<Outflow>, alloc: Global, sockets: u32) -> Result<(), NoMemory>
    requires none { flows.old.items ≡ [] }
    requires room { sockets ≤ vec_capacity flows.old }
    ensures { OnOk result (flows.new.items ≡ replicate sockets still) }
{
    for _socket in 0..sockets {
        flows.push_reserved(Outflow {
            bytes: Stream::new(alloc)?,
            next: None,
        });
    }
    Ok(())
}

//! One direction of a reliable-connected link, in memory: posts land in the order in which they were
//! posted, and those that landed complete in that order.
//!
//! A [`Wire`] promises: each post lands at most once, only after all posts before it, and only while the
//! link is not dead; it completes at most once, after it has landed, and only while no side has
//! reported the link; or it is swallowed, which counts as its completion, only on a cut link. What each
//! call gives and what is left is an equation in `specs/Wire.antt`. All memory is taken by
//! [`Wire::new`].
#![tactic(auto)]

ghost use Rattle.std.specs.Prelude.{◌≡◌, ◌<◌, IfOk, is_some, map, not, true, false};
ghost use Rattle.pipe_model.specs.Wires.{completes_later as completes};
ghost use Rattle.rc_link.specs.Wire.{empty, room_of, is_reported_by, is_reported, is_dead, landing, completing, swallowing, landed_with, with_post, with_landed, with_completed, with_swallowed, with_report, next_cdc, IsSpent};

mod laws;

use circular_buffer::HeapCircularBuffer;
pub use laws::{
    the_first_landed_post_completes, the_first_post_is_swallowed, the_first_post_lands,
};
use pipe_model::{CdcMessage, Post, PostRef, Side, Snapshot};
use smc_num::NoMemory;
use std::alloc::Global;
use std::marker::Model;

/// A post with its place in the history, and the plain snapshot that it spells where it is a CDC
/// message that tells one.
#[derive(Clone, Copy, Debug, PartialEq, Eq)]
pub struct InFlight {
    pub at: PostRef,
    pub post: Post,
    pub plain: Snapshot,
}

/// The posts of one side on a link: those that have not landed, and those that have landed and not
/// completed. Contracts see it as its queues.
#[derive(Drop)]
pub struct Wire {
    waiting: HeapCircularBuffer<InFlight>,
    landed: HeapCircularBuffer<InFlight>,
    places: u32,
    cut: bool,
    by_a: bool,
    by_b: bool,
}

impl Model for Wire {
    ghost use Rattle.std.specs.Prelude.{◌≡◌, ◌+◌, ◌≤◌, length};
    ghost use Rattle.rc_link.specs.Wire.{Queues};

    ghost Value = { Queues };

    ghost view = { λ w. record { places = w.places; waiting = w.waiting.items; landed = w.landed.items; cut = w.cut; by_a = w.by_a; by_b = w.by_b } };

    ghost invariant = { λ w. (w.waiting.capacity ≡ w.places) × (w.landed.capacity ≡ w.places) × (length w.waiting.items + length w.landed.items ≤ w.places) };
}

/// A write or a CDC message completes after it has landed; an LLC message is done with then.
fn completes_later(post: &Post) -> bool
    ensures { result ≡ completes post.now }
{
    !matches!(post, Post::Llc { .. })
}

impl Wire {
    /// A wire that carries nothing, with room for so many posts.
    pub fn new(alloc: Global, room: u32) -> Result<Wire, NoMemory>
        ensures { IfOk result (λ wire. wire ≡ empty room false) }
    {
        let Ok(waiting) = HeapCircularBuffer::with_capacity(alloc, room as usize) else {
            return Err(NoMemory);
        };
        let Ok(landed) = HeapCircularBuffer::with_capacity(alloc, room as usize) else {
            return Err(NoMemory);
        };
        Ok(Wire {
            waiting,
            landed,
            places: room,
            cut: false,
            by_a: false,
            by_b: false,
        })
    }

    /// How many posts it has room for now.
    pub fn room(&self) -> u32
        ensures { result ≡ room_of self.now }
    {
        self.places - (self.waiting.len() as u32 + self.landed.len() as u32)
    }

    /// Takes a post, which waits behind all others.
    pub fn post(&mut self, item: InFlight)
        requires { 0 < room_of self.old }
        ensures { self.new ≡ with_post item self.old }
    {
        self.waiting.push_back(item);
    }

    /// Whether a post would land now.
    pub fn can_land(&self) -> bool
        ensures { result ≡ is_some (landing self.now) }
    {
        !self.dead() && !self.waiting.is_empty()
    }

    /// Whether a post would complete now.
    pub fn can_complete(&self) -> bool
        ensures { result ≡ is_some (completing self.now) }
    {
        !self.reported() && !self.landed.is_empty()
    }

    /// Whether some side has reported the link.
    fn reported(&self) -> bool
        ensures { result ≡ is_reported self.now }
    {
        self.by_a || self.by_b
    }

    /// Whether the link is dead: it was cut, or a side has reported it, since the wire was made or renewed.
    pub fn dead(&self) -> bool
        ensures { result ≡ is_dead self.now }
    {
        self.cut || self.reported()
    }

    /// The next post lands, unless the link is dead. A write or a CDC message then waits to complete.
    pub fn land(&mut self) -> Option<InFlight>
        ensures post { result ≡ landing self.old }
        ensures wire { self.new ≡ with_landed (landing self.old) self.old }
    {
        if self.dead() {
            return None;
        }
        let item = self.waiting.pop_front()?;
        if completes_later(&item.post) {
            self.landed.push_back(item);
        }
        Some(item)
    }

    /// The next CDC message among the posts that have not landed.
    pub fn next_cdc(&self) -> Option<CdcMessage>
        ensures { result ≡ next_cdc (map (λ c. c.post) self.now.waiting) }
    {
        for item in self.waiting.iter() {
            if let Post::Cdc { message, .. } = item.post {
                return Some(message);
            }
        }
        None
    }

    /// The oldest landed post completes, unless a side has reported the link.
    pub fn complete(&mut self) -> Option<InFlight>
        ensures post { result ≡ completing self.old }
        ensures wire { self.new ≡ with_completed (completing self.old) self.old }
    {
        if self.reported() {
            return None;
        }
        self.landed.pop_front()
    }

    /// The next post is lost and counts as completed, on a cut link that no side has reported, where no
    /// landed post waits to complete.
    pub fn swallow(&mut self) -> Option<InFlight>
        ensures post { result ≡ swallowing self.old }
        ensures wire { self.new ≡ with_swallowed (swallowing self.old) self.old }
    {
        if !self.cut || self.reported() || !self.landed.is_empty() {
            return None;
        }
        self.waiting.pop_front()
    }

    /// The link is cut: no post lands any more.
    pub fn cut(&mut self)
        ensures { self.new ≡ record self.old { cut = true } }
    {
        self.cut = true;
    }

    /// A side has reported the link. Tells whether this is its first report.
    pub fn report(&mut self, side: Side) -> bool
        ensures first { result ≡ not (is_reported_by side self.old) }
        ensures wire { self.new ≡ with_report side self.old }
    {
        match side {
            Side::A => !std::mem::replace(&mut self.by_a, true),
            Side::B => !std::mem::replace(&mut self.by_b, true),
        }
    }

    /// The wire of the next link on the slot, which may be cut from the start. What it carried is lost.
    pub fn renew(&mut self, cut: bool)
        requires { IsSpent self.old }
        ensures { self.new ≡ empty self.old.places cut }
    {
        self.waiting.clear();
        self.landed.clear();
        self.cut = cut;
        self.by_a = false;
        self.by_b = false;
    }
}

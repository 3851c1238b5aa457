//! The world: what was set, what has happened, what was handed out, and the two hosts.
ghost use Rattle.std.specs.Prelude.{◌≡◌, ◌↔◌, ◌≤◌, ◌<◌, ◌+◌, ◌^◌, ◌++◌, ◌∷◌, [], ℕ, length, vec_len, vec_capacity, IfOk, IfSome, IsTrue, None, Some, Err, option_to_list, reverse};
ghost use Rattle.std.specs.List.{All, find, flat_map};
ghost use Rattle.smc_num.specs.declared.Side.TheVariants.{A};
ghost use Rattle.smc_num.specs.Names.{up_to};
ghost use Rattle.pipe_model.specs.Fits.{Fits};
ghost use Rattle.pipe_model.specs.declared.event.Event.TheVariants.{Clc};
ghost use Rattle.pipe_model.specs.Lawful.{IsLawful};
ghost use Rattle.world_core.specs.Played.{IsOneLink, IsPlayed, handed};
ghost use Rattle.world_core.specs.Heard.{all_bytes, told_bytes};
ghost use Rattle.world_core.specs.Settings.{bad_field as first_bad};
ghost use Rattle.world_core.specs.Steps.{fresh_world, refusal, reply_to, stepped, step_answer, after_step, does_something, slot_events, socket_events, next_event, opened_socket, opening_order, past, pump_answer, after_pump, told_by, IsLawfulStep};
ghost use Rattle.world_core.specs.Hosts.{AreHosts, IsPlayedBy, told_at};
ghost use Rattle.world_core.specs.declared.settings.BadField.{BadField as Bad};
ghost use Rattle.world_core.specs.declared.world.NewFault.TheVariants.{BadSetup};

use crate::events::{act, due_on};
use crate::handshake::would_take;
use crate::host::Host;
use crate::lists::{all_up, push_within, with_room};
use crate::moment::Moment;
use crate::settings::{BadField, Field, bad_field};
use crate::wires::{can_complete, can_land};
use arrayvec::ArrayVec;
use pipe_model::{Entry, Event, Post, Posts, Reply, Room, Setup, Side, StepFault};
use smc_num::NoMemory;
use std::alloc::Global;
use std::marker::Model;

/// Why no world was made.
#[derive(Clone, Copy, Debug, PartialEq, Eq)]
pub enum NewFault {
    /// A field of the setup or of the room is outside its range: the first one, with its value.
    BadSetup { field: Field, value: u64 },
    /// Memory was asked for and there was none.
    NoMemory,
}

/// Two hosts, the link between them, and all that has happened.
#[derive(Drop)]
pub struct World {
    setup: Setup,
    payload: Vec<u8>,
    room: Room,
    history: Vec<Entry>,
    heard: Vec<u8>,
    a: Host,
    b: Host,
    // The sockets in the order in which they were opened; an entry opens one at most.
    opened: Vec<u32>,
    // Which paths are up, by slot.
    paths: Vec<bool>,
}

impl Model for World {
    ghost use Rattle.std.specs.Prelude.{vec_capacity};
    ghost use Rattle.world_core.specs.Steps.{Seen};
    ghost use Rattle.world_core.specs.Hosts.{IsWorldAfter};

    ghost Value = { Seen };

    ghost view = { λ w. record { setup = w.setup; payload = w.payload.items; room = w.room; history = w.history.items; heard = w.heard.items } };

    ghost invariant = { λ w. IsWorldAfter (record { setup = w.setup; payload = w.payload.items; room = w.room; history = w.history.items; heard = w.heard.items }) w.a w.b w.opened.items w.paths.items (vec_capacity w.history) (vec_capacity w.heard) (vec_capacity w.opened) };
}

/// Notes the socket that an entry opens, if it opens one.
fn note_opened(opened: &mut Vec<u32>, event: Event, reply: Reply)
    requires { vec_len opened.old < vec_capacity opened.old }
    ensures items { opened.new.items ≡ opened.old.items ++ option_to_list (opened_socket event reply) }
    ensures capacity { vec_capacity opened.old ≤ vec_capacity opened.new }
{
    if let (Event::Open(s), Reply::Opened) = (event, reply) {
        push_within(opened, s);
    }
}

impl World {
    /// A world in which nothing has happened. It takes all its memory here. A field outside its range is
    /// named, the first in the order of the setup's fields, A before B, then the room's.
    pub fn new(
        alloc: Global,
        setup: &Setup,
        payload: Vec<u8>,
        room: Room,
    ) -> Result<World, NewFault>
        requires payload { length payload.items < 2 ^ 32 }
        ensures made { IfOk result (λ world. world ≡ fresh_world setup.now payload.items room) }
        ensures bad { (b : Bad) → (result ≡ Err (BadSetup b.field b.value)) ↔ (first_bad setup.now room ≡ Some b) }
    {
        match bad_field(setup, room) {
            Some(BadField { field, value }) => Err(NewFault::BadSetup { field, value }),
            None => World::made(alloc, setup, payload, room).map_err(|_| NewFault::NoMemory),
        }
    }

    /// A world of these settings, each of which is in its range.
    fn made(alloc: Global, setup: &Setup, payload: Vec<u8>, room: Room) -> Result<World, NoMemory>
        requires good { first_bad setup.now room ≡ None }
        requires payload { length payload.items < 2 ^ 32 }
        ensures { IfOk result (λ world. world ≡ fresh_world setup.now payload.items room) }
    {
        let history = with_room(alloc, room.entries)?;
        let heard = with_room(alloc, room.bytes)?;
        let opened = with_room(alloc, room.entries)?;
        World::hosted(alloc, setup, payload, room, history, heard, opened)
    }

    /// A world over these empty lists.
    fn hosted(
        alloc: Global,
        setup: &Setup,
        payload: Vec<u8>,
        room: Room,
        history: Vec<Entry>,
        heard: Vec<u8>,
        opened: Vec<u32>,
    ) -> Result<World, NoMemory>
        requires good { first_bad setup.now room ≡ None }
        requires payload { length payload.items < 2 ^ 32 }
        requires history { (history.items ≡ []) × (room.entries ≤ vec_capacity history) }
        requires heard { (heard.items ≡ []) × (room.bytes ≤ vec_capacity heard) }
        requires opened { (opened.items ≡ []) × (room.entries ≤ vec_capacity opened) }
        ensures { IfOk result (λ world. world ≡ fresh_world setup.now payload.items room) }
    {
        let paths = all_up(alloc, setup.links)?;
        let a = Host::new(alloc, Side::A, setup)?;
        let b = Host::new(alloc, Side::B, setup)?;
        Ok(World {
            setup: *setup,
            payload,
            room,
            history,
            heard,
            a,
            b,
            opened,
            paths,
        })
    }

    /// Whether an event is one that is built, and names a known socket, the one slot, and bytes of the
    /// payload.
    pub fn fits(&self, event: &Event) -> bool
        ensures { IsTrue result ↔ Fits self.now.setup (length self.now.payload) event.now }
    {
        match *event {
            Event::Open(s) | Event::Clc { s, .. } => s < self.setup.sockets,
            Event::Write { end, at, len } => {
                end.s < self.setup.sockets && at as u64 + len as u64 <= self.payload.len() as u64
            }
            Event::Read { end, .. } => end.s < self.setup.sockets,
            Event::Deliver { slot, .. } | Event::Complete { slot, .. } => slot == 1,
            _ => false,
        }
    }

    /// How many bytes an event would hand out.
    fn due(&self, event: Event) -> u32
        requires fits { Fits self.now.setup (length self.now.payload) event }
        ensures { result ≡ handed (told_by self.now event) }
    {
        match event {
            Event::Read { end, len } => due_on(&self.a, &self.b, end, len),
            _ => 0,
        }
    }

    /// Why an event would be refused now, if it would.
    fn refusal(&self, event: Event) -> Option<StepFault>
        requires fits { Fits self.now.setup (length self.now.payload) event }
        ensures { result ≡ refusal self.now event }
    {
        if self.history.len() as u64 >= self.room.entries as u64 {
            return Some(StepFault::Spent {
                entries: self.room.entries,
            });
        }
        if self.heard.len() as u64 + self.due(event) as u64 > self.room.bytes as u64 {
            return Some(StepFault::BytesSpent {
                bytes: self.room.bytes,
            });
        }
        None
    }

    /// One event of an actor: one entry more, whose reply and posts are what the definitions give after
    /// the history before it. A step that the room has no place for is refused and changes nothing.
    pub fn step(&mut self, actor: u32, event: Event) -> Result<Reply, StepFault>
        requires fits { Fits self.old.setup (length self.old.payload) event }
        ensures reply { result ≡ step_answer event self.old }
        ensures world { self.new ≡ after_step actor event self.old }
        ensures lawful { IfOk result (λ reply. IsLawfulStep actor event self.old self.new) }
    {
        match self.refusal(event) {
            Some(fault) => Err(fault),
            None => Ok(self.play(actor, event)),
        }
    }

    /// One event for which there is room.
    fn play(&mut self, actor: u32, event: Event) -> Reply
        requires fits { Fits self.old.setup (length self.old.payload) event }
        requires room { refusal self.old event ≡ None }
        ensures reply { result ≡ reply_to self.old event }
        ensures world { self.new ≡ stepped actor event self.old }
        ensures lawful { IsLawfulStep actor event self.old self.new }
    {
        let mut posts = ArrayVec::new();
        let moment = Moment {
            setup: &self.setup,
            payload: &self.payload,
            history: &self.history,
            paths: &self.paths,
            heard: self.heard.len() as u32,
        };
        let reply = act(
            &mut self.a,
            &mut self.b,
            moment,
            event,
            &mut self.heard,
            &mut posts,
        );
        note_opened(&mut self.opened, event, reply);
        push_within(
            &mut self.history,
            Entry {
                actor,
                event,
                reply,
                posts: Posts::of(posts),
            },
        );
        reply
    }

    /// The first event, in the order of the link's posts and then of the sockets as they were opened, that
    /// would do something.
    pub fn next(&self) -> Option<Event>
        ensures first { result ≡ next_event self.now }
        ensures fits { IfSome result (Fits self.now.setup (length self.now.payload)) }
    {
        match self.next_on_link() {
            Some(event) => Some(event),
            None => self.next_on_sockets(),
        }
    }

    /// The first landing or completion that would do something.
    fn next_on_link(&self) -> Option<Event>
        ensures first { result ≡ find (λ event. does_something (told_by self.now event)) (flat_map slot_events (up_to self.now.setup.links)) }
        ensures fits { IfSome result (Fits self.now.setup (length self.now.payload)) }
    {
        if can_land(&self.a.wires, 1) {
            return Some(Event::Deliver {
                slot: 1,
                dir: Side::A,
            });
        }
        if can_land(&self.b.wires, 1) {
            return Some(Event::Deliver {
                slot: 1,
                dir: Side::B,
            });
        }
        if can_complete(&self.a.wires, 1) {
            return Some(Event::Complete {
                slot: 1,
                dir: Side::A,
            });
        }
        if can_complete(&self.b.wires, 1) {
            return Some(Event::Complete {
                slot: 1,
                dir: Side::B,
            });
        }
        None
    }

    /// The first CLC message that would be taken, on the sockets as they were opened.
    fn next_on_sockets(&self) -> Option<Event>
        ensures first { result ≡ find (λ event. does_something (told_by self.now event)) (flat_map socket_events (opening_order (past self.now))) }
        ensures fits { IfSome result (Fits self.now.setup (length self.now.payload)) }
    {
        self.next_on_these(&self.opened)
    }

    /// The first CLC message that would be taken on some sockets.
    fn next_on_these(&self, sockets: &[u32]) -> Option<Event>
        requires { All (λ s. s < self.now.setup.sockets) sockets.now }
        ensures first { result ≡ find (λ event. does_something (told_by self.now event)) (flat_map socket_events sockets.now) }
        ensures fits { IfSome result (Fits self.now.setup (length self.now.payload)) }
    {
        for s in sockets {
            if let Some(event) = self.next_on(*s) {
                return Some(event);
            }
        }
        None
    }

    /// The first CLC message of a socket that would be taken.
    fn next_on(&self, s: u32) -> Option<Event>
        requires { s < self.now.setup.sockets }
        ensures first { result ≡ find (λ event. does_something (told_by self.now event)) (socket_events s) }
        ensures fits { IfSome result (Fits self.now.setup (length self.now.payload)) }
    {
        if self.would_take(s, Side::A) {
            return Some(Event::Clc { s, dir: Side::A });
        }
        if self.would_take(s, Side::B) {
            return Some(Event::Clc { s, dir: Side::B });
        }
        None
    }

    /// Whether the next CLC message of a side on a socket would be taken by its peer.
    fn would_take(&self, s: u32, dir: Side) -> bool
        requires { s < self.now.setup.sockets }
        ensures { result ≡ does_something (told_by self.now (Clc s dir)) }
    {
        match dir {
            Side::A => would_take(&self.b, &self.a, s, &self.paths),
            Side::B => would_take(&self.a, &self.b, s, &self.paths),
        }
    }

    /// The step of [`World::next`], or nothing where that is none.
    pub fn pump(&mut self, actor: u32) -> Result<Option<Reply>, StepFault>
        ensures reply { result ≡ pump_answer self.old }
        ensures world { self.new ≡ after_pump actor self.old }
        ensures lawful { IfOk result (λ told. IfSome told (λ reply. IfSome (next_event self.old) (λ event. IsLawfulStep actor event self.old self.new))) }
    {
        match self.next() {
            None => Ok(None),
            Some(event) => Ok(Some(self.step(actor, event)?)),
        }
    }

    /// All entries, the oldest first: a lawful history, with the bytes that were handed out. Each entry has
    /// the reply and the posts that the definitions give, so all laws of such histories hold of it.
    pub fn history(&self) -> &[Entry]
        ensures history { result.now ≡ self.now.history }
        ensures few { length result.now ≤ 2 ^ 18 }
        ensures lawful { IsLawful self.now.setup self.now.payload self.now.history self.now.heard }
        ensures played { IsPlayed self.now.setup self.now.payload (reverse self.now.history) (length self.now.heard) }
        ensures one { IsOneLink self.now.setup }
    {
        self.history.as_slice()
    }

    /// All bytes that reads handed out, in order.
    pub fn heard(&self) -> &[u8]
        ensures heard { result.now ≡ self.now.heard }
        ensures all { self.now.heard ≡ all_bytes self.now.setup self.now.payload (reverse self.now.history) }
    {
        self.heard.as_slice()
    }

    /// The bytes that the scene's writes name.
    pub fn payload(&self) -> &[u8]
        ensures { result.now ≡ self.now.payload }
    {
        self.payload.as_slice()
    }
}

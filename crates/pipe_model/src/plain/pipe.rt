//! The pipe of one connection, fed item by item.
ghost use Rattle.std.specs.Prelude.{◌≡◌, ◌<◌, IfOk, OnOk, length};
ghost use Rattle.smc_num.specs.Names.{head};
ghost use Rattle.pipe_model.specs.Ends.{to_land, lands, takes};
ghost use Rattle.pipe_model.specs.Pipe.{Fate, GroupEnd, Up, Calls, Lands, Completes, half, told};
ghost use Rattle.pipe_model.specs.Plain.{begun, after, settled, call_of, told_of};

use crate::plain::asked::{PlainCall, PlainTold};
use crate::plain::end::PlainEnd;
use smc_num::{LinkId, LinkPhase, Side};
use std::alloc::{AllocError, Global};
use std::marker::Model;

/// The two ends of a connection and what it is made with. Contracts see the terms and the pipe of the
/// definitions.
///
/// Each item of a part is one call here, which posts what becomes due with it at either end. After
/// want of memory the pipe is of no more use.
#[derive(Drop)]
pub struct PlainPipe {
    size: u32,
    depth: u8,
    number: u16,
    a: PlainEnd,
    b: PlainEnd,
}

impl Model for PlainPipe {
    ghost use Rattle.pipe_model.specs.Plain.{Run};

    ghost Value = { Run };

    ghost view = { λ p. record {
      terms = record { size = p.size; depth = p.depth; number = p.number };
      ends = record { a = p.a; b = p.b };
    } };
}

/// The next message of an end lands at the other.
fn land(from: &mut PlainEnd, to: &mut PlainEnd)
    requires { from.old.landed < length from.old.sent }
    ensures from { from.new ≡ lands from.old }
    ensures to { to.new ≡ takes (head (to_land from.old)) to.old }
{
    let message = from.next_to_land();
    from.land();
    to.take(message);
}

impl PlainPipe {
    /// A pipe that nothing concerned, with elements of `size` bytes; at most `depth` snapshots of an
    /// end may be uncompleted, and `number` is that of its first one.
    pub fn new(alloc: Global, size: u32, depth: u8, number: u16) -> PlainPipe
        ensures { result ≡ begun (record { size = size; depth = depth; number = number }) }
    {
        PlainPipe {
            size,
            depth,
            number,
            a: PlainEnd::new(alloc, number),
            b: PlainEnd::new(alloc, number),
        }
    }

    /// The end at a side.
    pub fn half(&self, side: Side) -> &PlainEnd
        ensures { result.now ≡ half side self.now.ends }
    {
        match side {
            Side::A => &self.a,
            Side::B => &self.b,
        }
    }

    /// A link of the connection's group becomes live at a side, or stops being so.
    pub fn fate(&mut self, side: Side, link: LinkId, phase: LinkPhase) -> Result<(), AllocError>
        ensures { OnOk result (self.new ≡ after (Fate side link phase) self.old) }
    {
        match side {
            Side::A => self.a.meet_fate(link, phase)?,
            Side::B => self.b.meet_fate(link, phase)?,
        }
        self.settle()
    }

    /// The connection's group ends at a side.
    pub fn group_end(&mut self, side: Side) -> Result<(), AllocError>
        ensures { OnOk result (self.new ≡ after (GroupEnd side) self.old) }
    {
        match side {
            Side::A => self.a.lose_group(),
            Side::B => self.b.lose_group(),
        }
        self.settle()
    }

    /// The end at a side is established on a link.
    pub fn up(&mut self, side: Side, link: LinkId) -> Result<(), AllocError>
        ensures { OnOk result (self.new ≡ after (Up side link) self.old) }
    {
        match side {
            Side::A => self.a.come_up(link),
            Side::B => self.b.come_up(link),
        }
        self.settle()
    }

    /// A call at a side; what it is told.
    pub fn call(
        &mut self,
        alloc: Global,
        side: Side,
        call: PlainCall<'_>,
    ) -> Result<PlainTold, AllocError>
        ensures answer { IfOk result (λ t. told_of t ≡ told self.old.terms side (call_of call.entry) self.old.ends) }
        ensures ends { OnOk result (self.new ≡ after (Calls side (call_of call.entry)) self.old) }
    {
        let answer = self.told(alloc, side, call)?;
        let size = self.size;
        match side {
            Side::A => self.a.call(size, call)?,
            Side::B => self.b.call(size, call)?,
        }
        self.settle()?;
        Ok(answer)
    }

    /// The next message of the end at a side lands at its peer. There is one where its
    /// [`PlainEnd::next_to_land`] gives it.
    pub fn lands(&mut self, side: Side) -> Result<(), AllocError>
        requires { (half side self.old.ends).landed < length (half side self.old.ends).sent }
        ensures { OnOk result (self.new ≡ after (Lands side) self.old) }
    {
        match side {
            Side::A => land(&mut self.a, &mut self.b),
            Side::B => land(&mut self.b, &mut self.a),
        }
        self.settle()
    }

    /// The oldest uncompleted message of the end at a side completes.
    pub fn completes(&mut self, side: Side) -> Result<(), AllocError>
        ensures { OnOk result (self.new ≡ after (Completes side) self.old) }
    {
        match side {
            Side::A => self.a.complete(),
            Side::B => self.b.complete(),
        }
        self.settle()
    }

    /// What a call at a side is told.
    pub fn told(
        &self,
        alloc: Global,
        side: Side,
        call: PlainCall<'_>,
    ) -> Result<PlainTold, AllocError>
        ensures { IfOk result (λ t. told_of t ≡ told self.now.terms side (call_of call.entry) self.now.ends) }
    {
        match side {
            Side::A => self.a.told(alloc, self.size, call, self.b.accepted()),
            Side::B => self.b.told(alloc, self.size, call, self.a.accepted()),
        }
    }

    /// Posts what is due at either end.
    fn settle(&mut self) -> Result<(), AllocError>
        ensures { OnOk result (self.new ≡ settled self.old) }
    {
        let depth = self.depth;
        self.a.settle(depth)?;
        self.b.settle(depth)
    }
}

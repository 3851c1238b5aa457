// The machine, and the calls that passes make on it.
ghost use Rattle.std.specs.Prelude.{◌≡◌, ◌<◌, ◌≤◌, ◌+◌, [], ◌∷◌, IfOk, IfErr, OnOk, Some, length};
ghost use Rattle.turn_cell.specs.Places.{EachOnce};
ghost use Rattle.turn_cell.specs.Calls.{HasCalled, IsJoined, IsSplit, WasBusy, first_pass};

use crate::machine::Machine;
use crate::pass::Pass;
use crate::refusal::{Busy, SeatsSpent, StillOut};
use crate::rule::{OwnedTable, Start};
use crate::steps::{close_table, give_turn, join_seats, make_call, split_seat, take_turn};
use atomic_table::{Refused, Table};
use std::alloc::{AllocFailed, Global};
use std::marker::{Brand, Model};
use std::snapshot::Snapshot;
use std::sync::Wait;
use std::thread;

/// A machine that passes call by turns.
///
/// Turns are numbered from 1 on, as they are taken; the number 2^63 alone can come again. Contracts see which turn
/// it is, its number of seats, and the fixed part of its machine. Every call has the condition that its passes are
/// of this turn.
#[derive(Drop)]
pub struct Turn<M: Machine> {
    table: OwnedTable<M>,
    seats: u32,
}

impl<M: Machine> Model for Turn<M> {
    ghost use Rattle.std.specs.Prelude.{◌≡◌, ◌<◌, ◌^◌};
    ghost use Rattle.turn_cell.specs.Models.{TurnModel};

    ghost Value = { TurnModel M.Fixed };

    ghost view = { λ t. record { id = t.table.shared.table_id; seats = t.seats; fixed = M.fixed t.table.shared.key.machine.value } };

    ghost invariant = { λ t. (t.seats ≡ t.table.shared.key.seats) × (t.seats < 2 ^ 32) × (t.table.shared.table_id.words ≡ 2) × (t.table.shared.table_id.slots ≡ 1) };
}

impl<M: Machine> Turn<M> {
    /// A turn with its first pass, which has all seats and has seen the machine's list; the places of that list count
    /// as its own. The machine comes back for want of memory alone.
    pub fn new(alloc: Global, machine: M, seats: u32) -> Result<(Turn<M>, Pass<M>), M>
        requires { 1 ≤ seats }
        ensures turn { IfOk result (λ made. (made.0.seats ≡ seats) × (made.0.fixed ≡ M.fixed machine)) }
        ensures pass { IfOk result (λ made. made.1 ≡ first_pass made.0.id (M.list machine) seats) }
        ensures back { IfErr result (λ back. back ≡ machine) }
    {
        let about = Start {
            machine: Snapshot::of(&machine),
            seats,
        };
        let seen = machine.entries();
        let slots = slot_of(alloc, machine)?;
        match Table::new(alloc, &[u64::from(seen), 0], slots, &about) {
            Ok((table, seat)) => Ok((Turn { table, seats }, Pass { seat, seats, seen })),
            Err(Refused { slots }) => Err(machine_of(slots)),
        }
    }

    /// Makes a call, where no other pass has the turn. It never waits, and a pass that has all seats is never `Busy`.
    pub fn try_call(&self, pass: &mut Pass<M>, call: M::Call) -> Result<M::Reply, Busy<M::Call>>
        requires turn { pass.old.turn ≡ self.now.id }
        requires allowed { M.allowed self.now.fixed call }
        ensures ok { IfOk result (λ reply. HasCalled M.step self.now.fixed self.now.seats call pass.old reply pass.new) }

        // One try, and no turn was found out.
        ensures once { OnOk result ((pass.new.tries ≡ pass.old.tries + 1) × (pass.new.met ≡ pass.old.met)) }
        ensures busy { IfErr result (λ busy. (busy.call ≡ call) × WasBusy self.now.seats busy.turn pass.old pass.new) }
    {
        let found = take_turn::<M, Brand>(&self.table.shared, &mut pass.seat);
        let turn = found / 2 + 1;
        if found % 2 == 1 {
            return Err(Busy { call, turn });
        }
        let (reply, seen) = make_call(&self.table.shared, &mut pass.seat, call);
        give_turn(&self.table.shared, &mut pass.seat, turn);
        pass.seen = seen;
        Ok(reply)
    }

    /// Makes a call, and tries again while another pass has the turn.
    pub fn call(&self, rt: &impl Wait, pass: &mut Pass<M>, call: M::Call) -> M::Reply
        requires turn { pass.old.turn ≡ self.now.id }
        requires allowed { M.allowed self.now.fixed call }
        ensures { HasCalled M.step self.now.fixed self.now.seats call pass.old result pass.new }
    {
        let mut waiting = call;
        for _ in rt.forever() {
            match self.try_call(pass, waiting) {
                Ok(reply) => return reply,
                Err(busy) => waiting = busy.call,
            }
            thread::yield_now();
        }
        unreachable!()
    }

    /// A second pass, with one of the pass's seats.
    pub fn split(&self, pass: &mut Pass<M>) -> Result<Pass<M>, SeatsSpent>
        requires { pass.old.turn ≡ self.now.id }
        ensures split { IfOk result (λ other. IsSplit pass.old pass.new other) }
        ensures spent { IfErr result (λ spent. (spent.seats ≡ self.now.seats) × (pass.old.seats ≡ 1) × (pass.new ≡ pass.old)) }
    {
        if pass.seats == 1 {
            return Err(SeatsSpent { seats: self.seats });
        }
        let seat = split_seat(&self.table.shared, &mut pass.seat);
        pass.seats -= 1;
        Ok(Pass {
            seat,
            seats: 1,
            seen: pass.seen,
        })
    }

    /// Puts the other pass into this one.
    pub fn join(&self, pass: &mut Pass<M>, other: Pass<M>)
        requires pass { pass.old.turn ≡ self.now.id }
        requires other { other.turn ≡ self.now.id }
        ensures { IsJoined self.now.seats pass.old other pass.new }
    {
        let Pass { seat, seats, seen } = other;
        join_seats::<M, Brand>(&self.table.shared, &mut pass.seat, seat);
        pass.seats += seats;
        if pass.seen < seen {
            pass.seen = seen;
        }
    }

    /// The machine, where the pass has all seats; else turn and pass come back.
    pub fn close(self, pass: Pass<M>) -> Result<M, StillOut<M>>
        requires { pass.turn ≡ self.id }
        ensures machine { IfOk result (λ machine. (M.fixed machine ≡ self.fixed) × (M.list machine ≡ pass.seen) × EachOnce (length (M.list machine)) pass.mine) }
        ensures whole { OnOk result (pass.seats ≡ self.seats) }
        ensures out { IfErr result (λ still. (still.turn ≡ self) × (still.pass ≡ pass) × (0 < still.out) × (pass.seats + still.out ≡ self.seats)) }
    {
        if pass.seats < self.seats {
            let out = self.seats - pass.seats;
            return Err(StillOut {
                turn: self,
                pass,
                out,
            });
        }
        let Pass { seat, .. } = pass;
        let Turn { table, .. } = self;
        Ok(close_table(table, seat))
    }
}

// The slots of the table, which are the machine's alone. The machine comes back for want of memory.
fn slot_of<M>(alloc: Global, machine: M) -> Result<Vec<Option<M>>, M>
    ensures slot { IfOk result (λ slots. slots.items ≡ Some machine ∷ []) }
    ensures back { IfErr result (λ back. back ≡ machine) }
{
    let mut slots = Vec::new(alloc);
    match slots.push(Some(machine)) {
        Ok(()) => Ok(slots),
        Err(failed) => {
            slots.destroy_empty();
            let AllocFailed { value } = failed;
            match value {
                Some(machine) => Err(machine),
                None => unreachable!(),
            }
        }
    }
}

// The machine in its slot.
fn machine_of<M>(mut slots: Vec<Option<M>>) -> M
    requires { (m : M) × (slots.items ≡ Some m ∷ []) }
    ensures { slots.items ≡ Some result ∷ [] }
{
    let Some(slot) = slots.pop() else {
        unreachable!()
    };
    slots.destroy_empty();
    match slot {
        Some(machine) => machine,
        None => unreachable!(),
    }
}

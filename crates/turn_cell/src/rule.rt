// The table under a turn: a word that counts the entries, the turn word, and one slot for the machine.
use crate::machine::Machine;
use atomic_table::{Join, Play, Seat, Shared, Split, Table, TableRule};
use std::alloc::Global;
use std::collections::LinkedList;
use std::marker::{Brand, PhantomData};
use std::snapshot::Snapshot;

/// What a seat knows: the entries that it has seen, those that the seat joined to it last had seen, the places of its
/// own calls, its part of the seats, how often it has tried for the turn, the last turn that it took, the last that it
/// found out, and whether it has the turn. No value of it is made.
pub struct SeatView<E> {
    pub seen: LinkedList<E>,
    pub beside: LinkedList<E>,
    pub mine: LinkedList<u32>,
    pub seats: u32,
    pub tries: u64,
    pub last: u64,
    pub met: u64,
    pub has_turn: bool,
}

/// What the table is told when it is made: the machine, and the number of seats.
#[derive(Drop)]
pub struct Start<M> {
    pub machine: Snapshot<M>,
    pub seats: u32,
}

/// The table's steps, for threads to share.
pub type TurnTable<M> = Shared<Option<M>, SeatView<<M as Machine>::Entry>, Start<M>, TurnRule>;

/// The table with its memory.
pub type OwnedTable<M> = Table<
    Option<M>,
    SeatView<<M as Machine>::Entry>,
    Start<M>,
    TurnRule,
    Global,
>;

/// A seat at the table.
pub type TurnSeat<M> = Seat<Option<M>, SeatView<<M as Machine>::Entry>>;

pub struct TurnRule;

impl<M: Machine> TableRule<Option<M>, SeatView<M::Entry>, Start<M>> for TurnRule {
    ghost use Rattle.turn_cell.specs.Views.{first_view};
    ghost use Rattle.turn_cell.specs.Keeping.{Kept};

    ghost holds = { λ key. Kept M.list M.fixed (M.fixed key.machine.value) key.seats };

    ghost first = { λ key. first_view (M.list key.machine.value) key.seats };
}

/// A seat gives one of its seats to a new one.
pub struct OneSeat;

impl<E> Split<SeatView<E>> for OneSeat {
    ghost use Rattle.turn_cell.specs.Views.{left_view, new_view};

    ghost left = { left_view };

    ghost right = { new_view };
}

/// A seat takes in another, with all that it has.
pub struct BothSeats;

impl<E> Join<SeatView<E>> for BothSeats {
    ghost use Rattle.turn_cell.specs.Views.{both_views, spent_view};

    ghost both = { both_views };

    ghost spent = { spent_view };
}

/// What the table was told, for the steps, which can't read it. A call at `Brand` picks it.
pub trait Told<F> {
    ghost use Rattle.std.specs.Prelude.{Option, ℕ};

    ghost fixed: { Option F };

    ghost seats: { ℕ };
}

impl<F> Told<F> for Brand {
    ghost use Rattle.std.specs.Prelude.{None};

    ghost fixed = { None };

    ghost seats = { 0 };
}

/// The entry that the machine added, for the step that counts it. A call at `Brand` picks it.
pub trait Added<E> {
    ghost use Rattle.std.specs.Prelude.{Option};

    ghost entry: { Option E };
}

impl<E> Added<E> for Brand {
    ghost use Rattle.std.specs.Prelude.{None};

    ghost entry = { None };
}

/// The fetch and or of the turn word.
pub struct Take<J> {
    told: PhantomData<J>,
}

impl<M: Machine, J: Told<M::Fixed>> Play<Option<M>, SeatView<M::Entry>> for Take<J> {
    ghost use Rattle.turn_cell.specs.Plays.{Takes};

    ghost then = { Takes M.list M.fixed J.fixed J.seats };
}

/// The fetch and add of the count.
pub struct Raise<J> {
    added: PhantomData<J>,
}

impl<M: Machine, J: Added<M::Entry>> Play<Option<M>, SeatView<M::Entry>> for Raise<J> {
    ghost use Rattle.turn_cell.specs.Plays.{Raises};

    ghost then = { Raises J.entry };
}

/// The swap of the turn word.
pub struct GiveBack;

impl<M: Machine> Play<Option<M>, SeatView<M::Entry>> for GiveBack {
    ghost use Rattle.turn_cell.specs.Plays.{GivesBack};

    ghost then = { GivesBack };
}

/// The load of the count, once a seat has taken in another.
pub struct Look<J> {
    told: PhantomData<J>,
}

impl<M: Machine, J: Told<M::Fixed>> Play<Option<M>, SeatView<M::Entry>> for Look<J> {
    ghost use Rattle.turn_cell.specs.Plays.{Looks};

    ghost then = { Looks J.seats };
}

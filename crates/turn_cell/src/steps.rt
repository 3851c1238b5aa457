// The steps of a turn's calls on its table. Each is one atomic step, but for `make_call` and `join_seats`, which are of two.
ghost use Rattle.std.specs.Prelude.{◌≡◌, ◌<◌, ◌≤◌, ◌+◌, ◌-◌, ◌*◌, ◌/◌, ◌%◌, ◌^◌, ◌++◌, ◌∷◌, [], true, false, length, Some};
ghost use Rattle.turn_cell.specs.Lists.{added};
ghost use Rattle.turn_cell.specs.Calls.{Enters};
ghost use Rattle.turn_cell.specs.Views.{both_views, left_view, new_view};
ghost use Rattle.turn_cell.specs.Keeping.{IsSeatOf};
ghost use Rattle.turn_cell.specs.Plays.{FoundOut, Holds, IsLast, TookTurn};

use crate::machine::Machine;
use crate::rule::{
    Added, BothSeats, GiveBack, Look, OneSeat, OwnedTable, Raise, Take, Told, TurnSeat, TurnTable,
};
use std::marker::Brand;
use std::snapshot::Snapshot;

// The places of the two words, and of the machine.
const COUNT: usize = 0;

const TURN: usize = 1;

const MACHINE: usize = 0;

// Takes the turn, and with it the machine's slot, where the word found is even; it is then twice the number of turns
// that were given back.
pub(crate) fn take_turn<M: Machine, J: Told<M::Fixed>>(
    table: &TurnTable<M>,
    seat: &mut TurnSeat<M>,
) -> u64
    requires table { IsSeatOf seat.old.table_id table.now.table_id }
    requires idle { (seat.old.me.1 ≡ []) × (seat.old.me.0.has_turn ≡ false) × (0 < seat.old.me.0.seats) }
    requires told { (J.fixed ≡ Some (M.fixed table.now.key.machine.value)) × (J.seats ≡ table.now.key.seats) }
    ensures table { (seat.new.table_id ≡ seat.old.table_id) × (seat.new.id ≡ seat.old.id) }
    ensures taken { result % 2 ≡ 0 → TookTurn M.list M.fixed (Some (M.fixed table.now.key.machine.value)) table.now.key.seats (result / 2 + 1) seat.old.me seat.new.me }
    ensures out { result % 2 ≡ 1 → FoundOut table.now.key.seats (result / 2 + 1) seat.old.me seat.new.me }
{
    table.fetch_or::<Take<J>>(seat, TURN, 1)
}

// Takes the machine out, makes the call, counts the entry that it added and puts the machine back. It answers the
// machine's reply and its number of entries.
pub(crate) fn make_call<M: Machine>(
    table: &TurnTable<M>,
    seat: &mut TurnSeat<M>,
    call: M::Call,
) -> (M::Reply, u32)
    requires table { IsSeatOf seat.old.table_id table.now.table_id }
    requires working { seat.old.me.0.has_turn ≡ true }
    requires machine { (m : M) × (seat.old.me.1 ≡ (0, Some m) ∷ []) × (M.list m ≡ seat.old.me.0.seen) × (M.fixed m ≡ M.fixed table.now.key.machine.value) }
    requires allowed { M.allowed (M.fixed table.now.key.machine.value) call }
    ensures table { (seat.new.table_id ≡ seat.old.table_id) × (seat.new.id ≡ seat.old.id) }
    ensures machine { (m : M) × (seat.new.me.1 ≡ (0, Some m) ∷ []) × (M.list m ≡ seat.new.me.0.seen) × (M.fixed m ≡ M.fixed table.now.key.machine.value) }
    ensures view { seat.new.me.0 ≡ record seat.old.me.0 { seen = seat.new.me.0.seen; mine = seat.new.me.0.mine } }
    ensures does { M.step (M.fixed table.now.key.machine.value) seat.old.me.0.seen call result.0 seat.new.me.0.seen }
    ensures enters { Enters seat.old.me.0.seen seat.new.me.0.seen seat.old.me.0.mine seat.new.me.0.mine }
    ensures count { result.1 ≡ length seat.new.me.0.seen }
{
    let mut machine = match table.exchange(seat, MACHINE, None) {
        Some(machine) => machine,
        None => unreachable!(),
    };
    let before = Snapshot::of(&machine);
    let count = machine.entries();
    let reply = machine.apply(call);
    let entries = machine.entries();
    if entries != count {
        raise_count::<M, Brand>(table, seat, &machine, before);
    }
    let left = table.exchange(seat, MACHINE, Some(machine));
    let None = left else { unreachable!() };
    (reply, entries)
}

// Counts the one entry that the machine has more than before.
fn raise_count<M: Machine, J: Added<M::Entry>>(
    table: &TurnTable<M>,
    seat: &mut TurnSeat<M>,
    machine: &M,
    before: Snapshot<M>,
)
    requires table { IsSeatOf seat.old.table_id table.now.table_id }
    requires working { seat.old.me.0.has_turn ≡ true }
    requires seen { M.list before.value ≡ seat.old.me.0.seen }
    requires grown { (e : M.Entry) × (M.list machine.now ≡ M.list before.value ++ e ∷ []) }
    requires entry { J.entry ≡ added (M.list before.value) (M.list machine.now) }
    requires room { length (M.list machine.now) < 2 ^ 32 }
    ensures table { (seat.new.table_id ≡ seat.old.table_id) × (seat.new.id ≡ seat.old.id) }
    ensures counted { (seat.new.me.0 ≡ record seat.old.me.0 { seen = M.list machine.now; mine = seat.old.me.0.mine ++ length seat.old.me.0.seen ∷ [] }) × (seat.new.me.1 ≡ seat.old.me.1) }
{
    table.fetch_add::<Raise<J>>(seat, COUNT, 1);
}

// Gives the turn with this number back, with the machine in its slot.
pub(crate) fn give_turn<M: Machine>(table: &TurnTable<M>, seat: &mut TurnSeat<M>, turn: u64)
    requires table { IsSeatOf seat.old.table_id table.now.table_id }
    requires working { (seat.old.me.0.has_turn ≡ true) × (seat.old.me.0.last ≡ turn) × (turn ≤ 2 ^ 63) }
    requires machine { (m : M) × (seat.old.me.1 ≡ (0, Some m) ∷ []) × (M.list m ≡ seat.old.me.0.seen) × (M.fixed m ≡ M.fixed table.now.key.machine.value) }
    ensures table { (seat.new.table_id ≡ seat.old.table_id) × (seat.new.id ≡ seat.old.id) }
    ensures given { (seat.new.me.0 ≡ record seat.old.me.0 { has_turn = false }) × (seat.new.me.1 ≡ []) }
{
    table.swap::<GiveBack>(seat, TURN, word_after(turn));
}

// The turn word once this turn is given back. After the last number of all it is as before that turn, so that the
// number comes again.
fn word_after(turn: u64) -> u64
    requires { turn ≤ 2 ^ 63 }
    ensures early { turn < 2 ^ 63 → result ≡ 2 * turn }
    ensures last { turn ≡ 2 ^ 63 → result ≡ 2 ^ 64 - 2 }
{
    if turn == 1 << 63 {
        u64::MAX - 1
    } else {
        2 * turn
    }
}

// Cuts one seat off.
pub(crate) fn split_seat<M: Machine>(table: &TurnTable<M>, seat: &mut TurnSeat<M>) -> TurnSeat<M>
    requires table { IsSeatOf seat.old.table_id table.now.table_id }
    requires idle { seat.old.me.0.has_turn ≡ false }
    requires enough { 1 < seat.old.me.0.seats }
    ensures table { (seat.new.table_id ≡ seat.old.table_id) × (result.table_id ≡ seat.old.table_id) }
    ensures left { seat.new.me ≡ (left_view seat.old.me.0, seat.old.me.1) }
    ensures given { result.me ≡ (new_view seat.old.me.0, []) }
{
    table.split_seat::<OneSeat>(seat)
}

// Takes in the other seat, and looks once more, which shows that what both have fits the table.
pub(crate) fn join_seats<M: Machine, J: Told<M::Fixed>>(
    table: &TurnTable<M>,
    seat: &mut TurnSeat<M>,
    other: TurnSeat<M>,
)
    requires table { IsSeatOf seat.old.table_id table.now.table_id × IsSeatOf other.table_id table.now.table_id }
    requires idle { (seat.old.me.0.has_turn ≡ false) × (0 < seat.old.me.0.seats) }
    requires idle_other { (other.me.0.has_turn ≡ false) × (other.me.1 ≡ []) }
    requires told { (J.fixed ≡ Some (M.fixed table.now.key.machine.value)) × (J.seats ≡ table.now.key.seats) }
    ensures table { seat.new.table_id ≡ seat.old.table_id }
    ensures both { seat.new.me ≡ (both_views seat.old.me.0 other.me.0, seat.old.me.1) }
    ensures holds { Holds table.now.key.seats (both_views seat.old.me.0 other.me.0) }
{
    table.join_seat::<BothSeats>(seat, other);
    table.load::<Look<J>>(seat, COUNT);
}

// The machine of a table whose seats are all in this one.
pub(crate) fn close_table<M: Machine>(table: OwnedTable<M>, seat: TurnSeat<M>) -> M
    requires table { IsSeatOf seat.table_id table.shared.table_id }
    requires idle { seat.me.0.has_turn ≡ false }
    requires all { table.shared.key.seats ≤ seat.me.0.seats }
    ensures { IsLast M.list M.fixed (M.fixed table.shared.key.machine.value) table.shared.key.seats seat.me.0 result }
{
    let mut closed = table.close_with(seat);
    let slot = closed.take(MACHINE);
    closed.free();
    match slot {
        Some(machine) => machine,
        None => unreachable!(),
    }
}

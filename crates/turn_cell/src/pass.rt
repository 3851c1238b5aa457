// What one caller has of a turn.
ghost use Rattle.std.specs.Prelude.{◌≡◌, length};

use crate::machine::Machine;
use crate::rule::TurnSeat;
use std::marker::Model;

/// One caller's part in a turn: its seats, and what it knows of the machine's list.
///
/// Contracts see which turn it is of, the entries that it has seen, the places in them of its own calls, its number
/// of seats, how often it has tried to take the turn, the number of the last turn that it has taken, and that of
/// the turn that it last found out.
#[derive(Drop)]
pub struct Pass<M: Machine> {
    pub(crate) seat: TurnSeat<M>,
    pub(crate) seats: u32,
    pub(crate) seen: u32,
}

impl<M: Machine> Model for Pass<M> {
    ghost use Rattle.std.specs.Prelude.{◌≡◌, ◌<◌, [], false, length};
    ghost use Rattle.turn_cell.specs.Models.{PassModel};
    ghost use Rattle.turn_cell.specs.Views.{pass_of};

    ghost Value = { PassModel M.Entry };

    ghost view = { λ p. pass_of p.seat.table_id p.seat.me.0 };

    // Between two calls a pass holds no slot and has not the turn.
    ghost invariant = { λ p. (p.seat.me.1 ≡ []) × (p.seat.me.0.has_turn ≡ false) × (p.seats ≡ p.seat.me.0.seats) × (0 < p.seats) × (p.seen ≡ length p.seat.me.0.seen) };
}

impl<M: Machine> Pass<M> {
    /// How many entries it has seen.
    pub fn seen(&self) -> u32
        ensures { result ≡ length self.now.seen }
    {
        self.seen
    }
}

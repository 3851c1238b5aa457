// What a turn answers where it can't do what was asked.
use crate::machine::Machine;
use crate::pass::Pass;
use crate::turn::Turn;

/// Another pass has the turn. The call comes back, with the number of that turn.
#[derive(Drop)]
pub struct Busy<C> {
    pub call: C,
    pub turn: u64,
}

/// A pass with one seat alone can't be split. The turn has so many seats in all.
#[derive(Clone, Copy, Debug, PartialEq, Eq)]
pub struct SeatsSpent {
    pub seats: u32,
}

/// A turn isn't closed while seats are out. Turn and pass come back, with the number of seats that the pass lacks.
#[derive(Drop)]
pub struct StillOut<M: Machine> {
    pub turn: Turn<M>,
    pub pass: Pass<M>,
    pub out: u32,
}

//! One machine that passes share by turns, with no lock.
//!
//! A [`Turn`] holds the machine, and each caller has a [`Pass`]. A call takes the turn by one atomic step, is
//! answered by the machine itself, and gives the turn back; where another pass has the turn, `try_call` says so
//! at once. Every pass has seen a beginning of the machine's one list of entries: each call acts on a list that
//! begins with what its pass had seen, and leaves the pass with the whole list. A pass knows which places of the
//! list are its own, no place is two passes', and once all seats are joined into one pass every place is its own
//! and the machine comes out with just the list that this pass has seen.
//!
//! Nothing is promised of who comes first, nor that a try succeeds while several passes call.
#![tactic(auto)]

mod machine;
mod pass;
mod refusal;
mod rule;
mod steps;
mod turn;

pub use crate::machine::Machine;
pub use crate::pass::Pass;
pub use crate::refusal::{Busy, SeatsSpent, StillOut};
pub use crate::turn::Turn;

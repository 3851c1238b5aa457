//! What every list of entries shows, and every history whose entries the definitions make: whose posts wait where,
//! what an entry gives a connection and each of its links, what it offers, and in which states ends are.
//!
//! A law is a public function with an empty body: its contract is the statement, for any number of links, groups,
//! RMBs and sockets and for all events.
#![tactic(auto)]

mod ends;
mod known_links;
mod waiting;

pub use ends::{
    an_end_is_up_in_its_pipe_as_in_the_history, an_end_that_is_over_stays_over,
    ends_are_in_states_of_their_own, offers_are_made_once,
};
pub use known_links::known_links_rise;
pub use waiting::waiting_posts_stand_at_their_places;

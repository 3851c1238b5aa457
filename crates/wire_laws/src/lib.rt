//! Wires and private pipes agree: each link that a side has not lost carries of each of its ends just what the end has
//! under way there; and with it the laws of lendings hold whole.
//!
//! A law is a public function with an empty body: its contract is the statement, for any number of links, groups,
//! RMBs and sockets and for all events.
#![tactic(auto)]

mod bytes;
mod drops;
mod histories;
mod landings;
mod resets;
mod steps;
mod wires;

pub use bytes::{
    landed_bytes_stand_at_their_places, reads_hand_out_what_stands,
    told_bytes_stand_at_their_places,
};
pub use drops::dropped_messages_come_late;
pub use histories::{
    lendings_are_always_done_with, no_bytes_ever_come_after_a_lending,
    no_element_is_ever_lent_again_too_early, no_key_is_ever_bound_again_too_early,
    wires_and_pipes_always_agree,
};
pub use landings::{
    each_write_that_lands_is_home, rmbs_of_lent_elements_are_confirmed,
    writes_wait_before_their_messages, writes_wait_for_lent_elements, writes_wait_under_bound_keys,
};
pub use resets::{a_decline_names_a_lack_that_holds, resets_have_causes, resets_stay};
pub use steps::{
    a_lawful_history_is_made, a_made_entry_is_a_lawful_step, a_made_history_is_lawful,
};
pub use wires::{the_first_message_is_the_next_of_one_end, wires_and_pipes_agree};

//! Links, groups and flows after every history whose entries the definitions make: what each side knows of its links,
//! what of its requests is under way, how first contact stands, and what becomes of a link that stood.
//!
//! A law is a public function with an empty body: its contract is the statement, for any number of links, groups,
//! RMBs and sockets and for all events.
#![tactic(auto)]

mod flows;
mod key_numbers;
mod lost_links;

pub use flows::{
    all_flows_hold, ends_wait_for_their_first_link, first_contact_holds, lawful_histories_flow,
};
pub use key_numbers::{keys_are_apart, keys_are_in_range};
pub use lost_links::a_link_stands_or_was_lost;

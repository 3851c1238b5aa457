//! Elements and keys after every history whose entries the definitions make: what is lent is apart and held, an element
//! is lent again only when each earlier lending of it is done with, and a number is bound again only then too.
//!
//! A law is a public function with an empty body: its contract is the statement, for any number of links, groups,
//! RMBs and sockets and for all events. What it takes from another subject is a premise with a name.
#![tactic(auto)]

mod bound_keys;
mod lent_elements;
mod offered_ends;

pub use bound_keys::{
    confirmed_rmbs_have_their_keys, free_numbers_are_done_with, keys_are_bound, keys_are_known,
    keys_are_of_the_group,
};
pub use lent_elements::{
    a_token_names_its_lending, lendings_are_done_with, no_bytes_come_after_a_lending,
    no_element_is_lent_again_too_early,
};
pub use offered_ends::{
    ends_come_up_on_live_links, ends_have_the_live_links, groups_begin_new, offers_are_plain,
};

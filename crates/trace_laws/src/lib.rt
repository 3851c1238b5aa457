//! What the traces of lawful histories hold: each of their messages can be written.
//!
//! A law is a public function with an empty body: its contract is the statement, for any number of links, groups,
//! RMBs and sockets and for all events.
#![tactic(auto)]

mod laws;

pub use laws::{lawful_histories_can_be_written, made_messages_can_be_written};

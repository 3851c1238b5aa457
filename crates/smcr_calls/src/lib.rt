//! What the program `smcr` does, over any source and sink.
//!
//! [`smcr`] does all of it: what it writes is the text, or the trace, of the one history whose events
//! are those of the bytes read, and each status comes only for its cause. The program itself, the crate
//! `smcr_cli`, only hands it the real words, standard input and standard output.
#![tactic(auto)]

mod fields;
pub mod headline;
mod print;
mod print_posts;
mod print_replies;
mod run;
mod show;
mod show_text;
mod spell;
mod top;
mod trace;

pub use print_posts::put_posts;
pub use print_replies::put_reply;
pub use top::{MOST_INPUT_BYTES, Status, smcr};

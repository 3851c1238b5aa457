//! All messages of a history in one file, each in its own spelling.
//!
//! The file begins with `SMCT` and 1. Each post is a frame: entry, number in the entry, kind, side,
//! link, socket and length, and then the message. The file ends with an entry of 0 and the number of
//! frames. All numbers are big-endian. [`write_trace`] puts the file of a history, [`read_trace`] gives
//! the posts of a file, or the first fault by place.
#![tactic(auto)]

mod fault;
mod head;
mod laws;
mod message;
mod reading;
mod spelling;
mod writing;

pub use fault::TraceFault;
pub use laws::{
    a_history_is_read_of_its_trace, no_other_posts_have_the_file, what_is_read_is_the_file,
    what_was_written_is_read,
};
pub use pipe_model::{Placed, Post, PostRef};
pub use reading::read_trace;
pub use spelling::put_frame;
pub use writing::write_trace;

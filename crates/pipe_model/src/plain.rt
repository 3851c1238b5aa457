//! A plain program of the private pipe of a connection: slow functions, each of which gives what one
//! definition of `specs/` says.
//!
//! It is for tests and for checkers of printed histories. A [`PlainPipe`] is fed one item of a
//! connection's part after another: each of its functions does the item and posts what becomes due
//! with it, [`PlainPipe::call`] gives what the call must be told, and [`PlainEnd::sent_since`] what
//! an end has posted. It keeps all bytes that an end accepted and all messages that it posted, and
//! so is no manager.
mod answers;
mod asked;
mod calls;
mod closing;
mod end;
mod links;
mod lists;
mod news;
mod pipe;

pub use asked::{PlainCall, PlainTold};
pub use end::PlainEnd;
pub use pipe::PlainPipe;

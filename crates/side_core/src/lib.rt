//! One peer: its group with its links, keys and elements, its handshakes, and the ends of its
//! connections over its buffers (RFC 7609, sections 2 to 4).
//!
//! A [`SideCore`] decides all that a message or a call makes its side do, and posts it; when a post lands
//! is the world's. Contracts see the manager of `specs/Manager`: each call says what it makes of every
//! plain manager for which the side stands, whose ends are those of the private pipes, what it posts and
//! what is told. A write of the peer lands by its key and its address alone and looks at no connection; a
//! read copies out of the buffer. All memory is taken by [`SideCore::new`].
#![tactic(auto)]

mod change;
mod connections;
mod desk;
mod messages;
mod record;
mod route;
mod shelf;
mod side;
mod taking;

pub use change::EndCall;
pub use clc_handshake::EndState;
pub use conn_end::EndReply;
pub use side::SideCore;

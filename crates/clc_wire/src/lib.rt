//! The CLC messages, by which two peers agree over TCP on SMC-R for a connection: Proposal, Accept,
//! Confirm and Decline, after RFC 7609, appendix A.2. A message has one spelling, which `write_clc`
//! writes. `read_clc` reads the message at the front of bytes and its length, or names the first
//! fault by place. What was written is read again, whatever follows it.
#![tactic(auto)]

mod fault;
mod header;
mod message;
mod offer;
mod proposal;
mod refusal;

pub use fault::ClcFault;
pub use message::{ClcMessage, read_clc, reads_back, write_clc};
pub use offer::Offer;
pub use proposal::Proposal;
pub use refusal::Refusal;

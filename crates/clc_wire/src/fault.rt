//! What is wrong with bytes that should be a CLC message.
#![tactic(auto)]

/// The first fault, by place.
#[derive(Clone, Copy, Debug, PartialEq, Eq)]
pub enum ClcFault {
    /// The bytes end before a field of the header, or before the message does.
    Short,
    /// The eye catcher in front differs at this place, counted from 0.
    BadEye { place: u8 },
    /// No message has this type.
    BadType { value: u8 },
    /// The type doesn't allow this length, or the parts of a Proposal don't fit into it.
    BadLength { value: u16 },
    /// The version, which is the high four bits of the last header byte, isn't 1.
    BadVersion { value: u8 },
    /// The eye catcher at the end differs.
    BadTrailer,
}

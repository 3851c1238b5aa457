//! What is wrong with bytes that should be a trace.

/// The first fault by place; of those of one frame the first of these. `place` is where the frame
/// begins, or the end of the file.
#[derive(Clone, Copy, Debug, PartialEq, Eq)]
pub enum TraceFault {
    /// There was no memory for the posts.
    NoMemory,
    /// It does not begin as a trace does.
    BadMagic,
    /// The bytes end before the frame or the end of the file does.
    Short { place: u32 },
    /// A field in front of the message is not allowed, or not with this kind of message.
    BadField { place: u32 },
    /// The bytes of the message are not the one spelling of a message of this kind.
    BadMessage { place: u32 },
    /// The post is not behind the one of the frame before it.
    BadOrder { place: u32 },
    /// The end tells another number of frames, or bytes follow it.
    BadEnd { place: u32 },
}

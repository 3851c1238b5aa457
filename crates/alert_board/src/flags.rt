// What is published at a place.

/// The flags of one end of a connection.
#[derive(Clone, Copy, Debug, Default, PartialEq, Eq)]
pub struct Alert {
    /// A read of one byte would give a byte.
    pub readable: bool,
    /// The peer has told that it is done, or closed.
    pub done: bool,
    /// The peer has told that it is closed.
    pub closed: bool,
    /// The end is reset.
    pub reset: bool,
}

/// A publication: its number at its place, from 1 on, and its flags. Number 0 has no flag, and stands where nothing is published.
#[derive(Clone, Copy, Debug, Default, PartialEq, Eq)]
pub struct News {
    pub number: u32,
    pub flags: Alert,
}

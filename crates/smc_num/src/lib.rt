//! The small values that both peers speak of: sides, links, and the wrapping numbers and cursors of
//! messages.
//!
//! A connection joins two peers: side `A` is the TCP client, side `B` the TCP server (RFC 7609,
//! section 1). Numbers and cursors wrap on the wire. Each stands for a plain number, and the
//! contracts here say that they count as the plain numbers do, as far apart as they may be.
#![tactic(auto)]

ghost use Rattle.std.specs.Prelude.{◌≡◌, ℕ, ◌+◌, ◌≤◌, ◌<◌, ◌^◌, ◌↔◌, IsTrue};
ghost use Rattle.smc_num.specs.Numbers.{seq_of, cursor_of, is_past, IsMovedOn};

pub mod laws;

/// A peer: `A` is the TCP client, `B` the TCP server.
#[derive(Clone, Copy, Debug, PartialEq, Eq)]
pub enum Side {
    A,
    B,
}

/// Memory was asked for and there was none.
#[derive(Clone, Copy, Debug, PartialEq, Eq)]
pub struct NoMemory;

/// The name of a link: its group, from 1, its slot in the group, from 1, and how many links were
/// made on the slot up to it.
#[derive(Clone, Copy, Debug, PartialEq, Eq)]
pub struct LinkId {
    pub group: u32,
    pub slot: u8,
    pub incarnation: u32,
}

/// What a link is at a side: not made there, made and not yet confirmed, confirmed, or reported as
/// lost.
#[derive(Clone, Copy, Debug, PartialEq, Eq)]
pub enum LinkPhase {
    Unused,
    Pending,
    Live,
    Dead,
}

/// The sequence number of a CDC message (RFC 7609, appendix A.4). It stands for a plain number
/// modulo 65,536.
#[derive(Clone, Copy, Debug, PartialEq, Eq)]
pub struct Seq16(pub u16);

impl Seq16 {
    /// One more, modulo 65,536.
    pub fn next(self) -> Seq16
        ensures { (n : ℕ) → self ≡ seq_of n → result ≡ seq_of (n + 1) }
    {
        Seq16(self.0.wrapping_add(1))
    }

    /// Whether `other` is 1 to 32,767 past this number, modulo 65,536. Of two numbers less than
    /// 32,768 apart this one is then the smaller.
    pub fn behind(self, other: Seq16) -> bool
        ensures circle { result ≡ is_past other.0 self.0 }
        ensures order { (n m : ℕ) → self ≡ seq_of n → other ≡ seq_of m → n < m + 32_768 → m < n + 32_768
            → IsTrue result ↔ (n < m) }
    {
        let distance = other.0.wrapping_sub(self.0);
        0 < distance && distance < 32_768
    }
}

/// A place in a connection's stream of bytes, which goes round and round an RMB element
/// (RFC 7609, appendix A.4): how often it went round, modulo 65,536, and the bytes since.
#[derive(Clone, Copy, Debug, PartialEq, Eq)]
pub struct Cursor {
    pub wrap: u16,
    pub count: u32,
}

impl Cursor {
    /// The cursor `n` bytes on, in an element of `size` bytes. The wraps count modulo 65,536.
    pub fn forward(self, n: u32, size: u32) -> Cursor
        requires within { n ≤ size }
        requires inside { self.count < size }
        ensures { (place : ℕ) → self ≡ cursor_of size place → result ≡ cursor_of size (place + n) }
    {
        let rest = size - self.count;
        if n < rest {
            Cursor {
                wrap: self.wrap,
                count: self.count + n,
            }
        } else {
            Cursor {
                wrap: self.wrap.wrapping_add(1),
                count: n - rest,
            }
        }
    }

    /// How many bytes this cursor is past `other`, of which it is at most one element of `size`
    /// bytes ahead.
    pub fn ahead_of(self, other: Cursor, size: u32) -> u32
        requires { IsMovedOn size other self }
        ensures { (from to : ℕ) → other ≡ cursor_of size from → self ≡ cursor_of size to
            → from ≤ to → to ≤ from + size → from + result ≡ to }
    {
        if self.wrap == other.wrap {
            self.count - other.count
        } else {
            size - other.count + self.count
        }
    }
}

/// The bytes of an RMB element of this size code: 16,384 for code 0, and twice as many for each
/// code more.
pub fn size_of_code(code: u8) -> u32
    requires { code ≤ 5 }
    ensures { result ≡ 2 ^ (code + 14) }
{
    1 << (code + 14)
}

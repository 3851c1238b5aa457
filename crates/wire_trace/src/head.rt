//! The 22 bytes in front of a message: where its post stands in the history, what it is, whose, and
//! how long.

ghost use Rattle.std.specs.Prelude.{◌≡◌, ◌≤◌, length};
ghost use Rattle.wire_trace.specs.Heads.{head_bytes, head_at, is_link, is_no_link, allows_post, allows_link, allows_length, is_allowed};

use arrayvec::ArrayVec;
use field_cases::{get, put};
use pipe_model::{LinkId, PostRef};

/// A head has so many bytes.
pub const HEAD_BYTES: usize = 22;

/// The kind of a frame with a CLC message.
pub const CLC: u8 = 1;
/// The kind of a frame with an LLC message.
pub const LLC: u8 = 2;
/// The kind of a frame with a CDC message.
pub const CDC: u8 = 3;
/// The kind of a frame with a remote write.
pub const WRITE: u8 = 4;

/// What stands in front of a message.
#[derive(Clone, Copy, Debug, PartialEq, Eq)]
pub struct Head {
    pub at: PostRef,
    /// 1 to 4: CLC, LLC, CDC, a remote write.
    pub kind: u8,
    /// 0 is A, 1 is B.
    pub side: u8,
    /// All 0 where the post names no link.
    pub link: LinkId,
    /// 0 but for a CLC message.
    pub socket: u32,
    /// How many bytes the message has.
    pub len: u16,
}

/// Begins a frame anew with its head.
pub fn put_head(head: &Head, out: &mut ArrayVec<u8, 90>)
    ensures { out.new.items ≡ head_bytes head.now }
{
    out.clear();
    put!(out; u32 head.at.entry, u8 head.at.post, u8 head.kind, u8 head.side, u8 head.link.slot);
    put!(out; u32 head.link.group, u32 head.link.incarnation, u32 head.socket, u16 head.len);
}

/// The head at the front.
pub fn read_head(bytes: &[u8]) -> Head
    requires { 22 ≤ length bytes.now }
    ensures { result ≡ head_at bytes.now }
{
    Head {
        at: PostRef {
            entry: get!(bytes; u32 at 0),
            post: get!(bytes; u8 at 4),
        },
        kind: get!(bytes; u8 at 5),
        side: get!(bytes; u8 at 6),
        link: LinkId {
            group: get!(bytes; u32 at 8),
            slot: get!(bytes; u8 at 7),
            incarnation: get!(bytes; u32 at 12),
        },
        socket: get!(bytes; u32 at 16),
        len: get!(bytes; u16 at 20),
    }
}

/// Whether it is the name of a link.
fn is_link(link: LinkId) -> bool
    ensures { result ≡ is_link link }
{
    1 <= link.slot && link.slot <= 8 && 1 <= link.group && 1 <= link.incarnation
}

/// Whether it names no link.
pub fn is_no_link(link: LinkId) -> bool
    ensures { result ≡ is_no_link link }
{
    link.slot == 0 && link.group == 0 && link.incarnation == 0
}

/// Whether the number of the post, the kind and the side may be.
fn allows_post(head: &Head) -> bool
    ensures { result ≡ allows_post head.now }
{
    1 <= head.at.post
        && head.at.post <= 6
        && CLC <= head.kind
        && head.kind <= WRITE
        && head.side <= 1
}

/// Whether the link and the socket may be with this kind.
fn allows_link(head: &Head) -> bool
    ensures { result ≡ allows_link head.now }
{
    if head.kind == CLC {
        is_link(head.link) || is_no_link(head.link)
    } else {
        is_link(head.link) && head.socket == 0
    }
}

/// Whether messages of this kind may have this length.
fn allows_length(kind: u8, len: u16) -> bool
    ensures { result ≡ allows_length kind len }
{
    if kind == CLC {
        len == 52 || len == 68 || len == 28
    } else if kind == WRITE {
        len == 16
    } else {
        len == 44
    }
}

/// Whether the fields may stand together.
pub fn is_allowed(head: &Head) -> bool
    ensures { result ≡ is_allowed head.now }
{
    allows_post(head) && allows_link(head) && allows_length(head.kind, head.len)
}

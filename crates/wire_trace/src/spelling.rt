//! How a post is put together as a frame.

ghost use Rattle.std.specs.Prelude.{◌≡◌, ◌≤◌, length, unwrap_or};
ghost use Rattle.smc_num.specs.Names.{no_link};
ghost use Rattle.wire_trace.specs.Messages.{write_bytes, message_bytes, side_code, head_for};
ghost use Rattle.wire_trace.specs.Files.{frame_bytes};
ghost use Rattle.wire_trace.specs.Traced.{IsWritable};

use crate::head::{CDC, CLC, Head, LLC, WRITE, put_head};
use arrayvec::ArrayVec;
use cdc_wire::write_cdc;
use clc_wire::write_clc;
use field_cases::{append_bytes, put};
use llc_wire::write_llc;
use pipe_model::{LinkId, Post, PostRef, Side};

/// The byte of a side.
fn side_code(side: Side) -> u8
    ensures { result ≡ side_code side }
{
    match side {
        Side::A => 0,
        Side::B => 1,
    }
}

/// The link, or the name that no link has.
fn link_or_none(link: Option<LinkId>) -> LinkId
    ensures { result ≡ unwrap_or link no_link }
{
    match link {
        Some(link) => link,
        None => LinkId {
            group: 0,
            slot: 0,
            incarnation: 0,
        },
    }
}

/// What stands in front of a message of `len` bytes, which was posted at a place.
fn head_for(at: PostRef, post: &Post, len: u16) -> Head
    ensures { result ≡ head_for at post.now len }
{
    let (kind, from, link, socket) = match post {
        Post::Write { from, link, .. } => (WRITE, *from, *link, 0),
        Post::Cdc { from, link, .. } => (CDC, *from, *link, 0),
        Post::Llc { from, link, .. } => (LLC, *from, *link, 0),
        Post::Clc { from, s, link, .. } => (CLC, *from, link_or_none(*link), *s),
    };
    Head {
        at,
        kind,
        side: side_code(from),
        link,
        socket,
        len,
    }
}

/// Puts bytes in place of what `out` held.
fn put_bytes(bytes: &[u8], out: &mut ArrayVec<u8, 68>)
    requires { length bytes.now ≤ 68 }
    ensures { out.new.items ≡ bytes.now }
{
    out.clear();
    append_bytes(out, bytes);
}

/// Puts a remote write in place of what `out` held.
fn put_write(key: u32, address: u64, len: u32, out: &mut ArrayVec<u8, 68>)
    ensures { out.new.items ≡ write_bytes key address len }
{
    out.clear();
    put!(out; u32 key, u64 address, u32 len);
}

/// Puts the one spelling of what was posted in place of what `out` held.
fn put_message(post: &Post, out: &mut ArrayVec<u8, 68>)
    requires { IsWritable post.now }
    ensures { out.new.items ≡ message_bytes post.now }
{
    match post {
        Post::Write {
            key,
            address,
            len,
            ..
        } => put_write(*key, *address, *len, out),
        Post::Cdc { message, .. } => put_bytes(&write_cdc(message), out),
        Post::Llc { message, .. } => put_bytes(&write_llc(message), out),
        Post::Clc { message, .. } => write_clc(message, out),
    }
}

/// Puts a frame together, in place of what `out` held.
#[tactic(auto, unfolding(crate::specs::Files::frame_bytes))]
pub fn put_frame(at: PostRef, post: &Post, out: &mut ArrayVec<u8, 90>)
    requires { IsWritable post.now }
    ensures { out.new.items ≡ frame_bytes at post.now }
{
    let mut message: ArrayVec<u8, 68> = ArrayVec::new();
    put_message(post, &mut message);
    put_head(&head_for(at, post, message.len() as u16), out);
    append_bytes(out, message.as_slice());
}

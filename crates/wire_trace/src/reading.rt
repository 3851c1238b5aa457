//! Reading a trace.

ghost use Rattle.std.specs.Prelude.{◌≡◌, ◌≤◌, ◌<◌, ◌+◌, ◌++◌, ◌∷◌, ◌^◌, [], List, length, IfOk, IfErr, OnOk, All, Ok, true};
ghost use Rattle.pipe_model.specs.declared.post.Placed.{Placed as APlaced};
ghost use Rattle.wire_trace.specs.Heads.{allows_length};
ghost use Rattle.wire_trace.specs.Files.{whole_at, allowed_at, is_behind, placed_at, frame_at, is_end, end_at, all_frames, posts_of, file_of, IsFault};
ghost use Rattle.wire_trace.specs.Traced.{IsPlaced};

use crate::fault::TraceFault;
use crate::head::{HEAD_BYTES, Head, is_allowed, read_head};
use crate::message::read_post;
use field_cases::get;
use pipe_model::{Placed, Post, PostRef};
use std::alloc::Global;

/// What a trace begins with: `SMCT`, and the number of the format.
pub const MAGIC: [u8; 5] = [0x53, 0x4d, 0x43, 0x54, 0x01];

/// The head of a frame that is whole.
fn read_whole(place: u32, bytes: &[u8]) -> Result<Head, TraceFault>
    ensures head { result ≡ whole_at place bytes.now }
    ensures there { IfOk result (λ head. 22 + head.len ≤ length bytes.now) }
{
    if bytes.len() < HEAD_BYTES {
        return Err(TraceFault::Short { place });
    }
    let head = read_head(bytes);
    if bytes.len() < HEAD_BYTES + head.len as usize {
        return Err(TraceFault::Short { place });
    }
    Ok(head)
}

/// Checks that the fields of a head may stand together.
fn check_fields(place: u32, head: &Head) -> Result<(), TraceFault>
    ensures fields { result ≡ allowed_at place head.now }
    ensures len { OnOk result (allows_length head.now.kind head.now.len ≡ true) }
{
    if is_allowed(head) {
        Ok(())
    } else {
        Err(TraceFault::BadField { place })
    }
}

/// Whether a post is behind another in the history.
fn is_behind(last: PostRef, at: PostRef) -> bool
    ensures { result ≡ is_behind last at }
{
    last.entry < at.entry || (last.entry == at.entry && last.post < at.post)
}

/// The post of a frame, where its message was read, and it is behind the last one.
fn placed_at(
    place: u32,
    last: PostRef,
    at: PostRef,
    post: Option<Post>,
) -> Result<Placed, TraceFault>
    ensures { result ≡ placed_at place last at post }
{
    match post {
        Some(post) => {
            if is_behind(last, at) {
                Ok(Placed { at, post })
            } else {
                Err(TraceFault::BadOrder { place })
            }
        }
        None => Err(TraceFault::BadMessage { place }),
    }
}

/// The post of the frame at the front, and the frame's length.
#[tactic(auto, unfolding(crate::specs::Files::frame_at))]
fn read_frame(place: u32, last: PostRef, bytes: &[u8]) -> Result<(Placed, usize), TraceFault>
    ensures frame { result ≡ frame_at place last bytes.now }
    ensures there { IfOk result (λ found. found.1 ≤ length bytes.now) }
    ensures some { IfOk result (λ found. 22 ≤ found.1) }
{
    let head = read_whole(place, bytes)?;
    check_fields(place, &head)?;
    let end = HEAD_BYTES + head.len as usize;
    let post = read_post(&head, &bytes[HEAD_BYTES..end]);
    let placed = placed_at(place, last, head.at, post)?;
    Ok((placed, end))
}

/// Whether the end of the file is at the front.
fn is_end(bytes: &[u8]) -> bool
    ensures { result ≡ is_end bytes.now }
{
    4 <= bytes.len() && get!(bytes; u32 at 0) == 0
}

/// Checks the end of the file: it tells the number of posts, and nothing follows it.
fn check_end(place: u32, posts: Vec<Placed>, bytes: &[u8]) -> Result<Vec<Placed>, TraceFault>
    ensures ok { IfOk result (λ read. end_at place posts.items bytes.now ≡ Ok read.items) }
    ensures err { IfErr result (λ fault. IsFault fault (end_at place posts.items bytes.now)) }
{
    if bytes.len() < 8 {
        return Err(TraceFault::Short { place });
    }
    if bytes.len() == 8 && get!(bytes; u32 at 4) as usize == posts.len() {
        Ok(posts)
    } else {
        Err(TraceFault::BadEnd { place })
    }
}

/// Appends a post where there is memory for it.
fn push(posts: &mut Vec<Placed>, post: Placed) -> Result<(), TraceFault>
    ensures posts { OnOk result (posts.new.items ≡ posts.old.items ++ post ∷ []) }
    ensures memory { IfErr result (λ fault. fault ≡ TraceFault.NoMemory) }
{
    match posts.push(post) {
        Ok(()) => Ok(()),
        Err(_) => Err(TraceFault::NoMemory),
    }
}

/// The posts of the frames behind the first five bytes.
fn read_frames(alloc: Global, bytes: &[u8]) -> Result<Vec<Placed>, TraceFault>
    requires begins { 5 ≤ length bytes.now }
    requires few { length bytes.now < 2 ^ 32 }
    ensures ok { IfOk result (λ posts. all_frames bytes.now ≡ Ok posts.items) }
    ensures err { IfErr result (λ fault. IsFault fault (all_frames bytes.now)) }
{
    let mut posts = Vec::new(alloc);
    let mut last = PostRef { entry: 0, post: 0 };
    let mut place = MAGIC.len();
    while !is_end(&bytes[place..]) {
        let (post, len) = match read_frame(place as u32, last, &bytes[place..]) {
            Ok(found) => found,
            Err(fault) => return Err(fault),
        };
        match push(&mut posts, post) {
            Ok(()) => {}
            Err(fault) => return Err(fault),
        }
        last = post.at;
        place += len;
    }
    check_end(place as u32, posts, &bytes[place..])
}

/// The posts of a trace of fewer than 2^32 bytes, each with its place in the history.
///
/// A fault is the first by place, of those of one frame the first in the order of [`TraceFault`].
/// `NoMemory` may come at any time.
pub fn read_trace(alloc: Global, bytes: &[u8]) -> Result<Vec<Placed>, TraceFault>
    requires { length bytes.now < 2 ^ 32 }
    ensures ok { IfOk result (λ posts. posts_of bytes.now ≡ Ok posts.items) }
    ensures err { IfErr result (λ fault. IsFault fault (posts_of bytes.now)) }
    // The bytes are the file of the posts.
    ensures file { IfOk result (λ posts. file_of posts.items ≡ bytes.now) }
    // No other list of posts that can be written has it.
    ensures alone { IfOk result (λ posts. (others : List APlaced) → All IsPlaced others → file_of others ≡ bytes.now → others ≡ posts.items) }
{
    if !bytes.starts_with(&MAGIC) {
        return Err(TraceFault::BadMagic);
    }
    read_frames(alloc, bytes)
}

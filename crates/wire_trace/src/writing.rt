//! Writing a trace, by way of a page. No memory is taken.

ghost use Rattle.std.specs.Prelude.{◌≡◌, ◌≤◌, ◌<◌, ◌^◌, ◌++◌, length, All};
ghost use Rattle.byte_port.specs.Causes.{HasCause};
ghost use Rattle.byte_port.specs.Pages.{Wrote};
ghost use Rattle.pipe_model.specs.History.{numbered};
ghost use Rattle.wire_trace.specs.Files.{frame_bytes, frames_of, end_bytes, posts_in, file_of};
ghost use Rattle.wire_trace.specs.Traced.{IsWritable, AreWritable};

use crate::reading::MAGIC;
use crate::spelling::put_frame;
use arrayvec::ArrayVec;
use byte_port::{Failed, Page, Sink};
use field_cases::put;
use pipe_model::{Entry, Post, PostRef};

/// Puts the frame of a post.
#[tactic(auto, using(byte_port::proofs::Paging::pieces))]
fn put_post<K: Sink>(page: &mut Page, sink: &mut K, at: PostRef, post: &Post) -> Result<(), Failed>
    requires { IsWritable post.now }
    ensures wrote { Wrote result (K.held sink.old) page.old (K.held sink.new) page.new (frame_bytes at post.now) }
    ensures cause { HasCause (K.faults sink.old) (K.faults sink.new) result }
{
    let mut frame: ArrayVec<u8, 90> = ArrayVec::new();
    put_frame(at, post, &mut frame);
    page.put(sink, frame.as_slice())
}

/// Puts the frames of the posts of an entry.
#[tactic(auto, using(byte_port::proofs::Paging::pieces))]
fn put_posts<K: Sink>(
    page: &mut Page,
    sink: &mut K,
    entry: u32,
    posts: &[Post],
) -> Result<(), Failed>
    requires few { length posts.now ≤ 6 }
    requires writable { All IsWritable posts.now }
    ensures wrote { Wrote result (K.held sink.old) page.old (K.held sink.new) page.new (frames_of (numbered entry 1 posts.now)) }
    ensures cause { HasCause (K.faults sink.old) (K.faults sink.new) result }
{
    for (index, post) in posts.iter().enumerate() {
        let at = PostRef {
            entry,
            post: index as u8 + 1,
        };
        put_post(page, sink, at, post)?;
    }
    Ok(())
}

/// Puts the frames of the posts of all entries.
#[tactic(auto, using(byte_port::proofs::Paging::pieces))]
fn put_entries<K: Sink>(page: &mut Page, sink: &mut K, entries: &[Entry]) -> Result<(), Failed>
    requires few { length entries.now < 2 ^ 29 }
    requires writable { AreWritable entries.now }
    ensures wrote { Wrote result (K.held sink.old) page.old (K.held sink.new) page.new (frames_of (posts_in entries.now)) }
    ensures cause { HasCause (K.faults sink.old) (K.faults sink.new) result }
{
    for (index, entry) in entries.iter().enumerate() {
        put_posts(page, sink, index as u32 + 1, entry.posts.as_slice())?;
    }
    Ok(())
}

/// How many posts there are.
fn count_posts(entries: &[Entry]) -> u32
    requires { length entries.now < 2 ^ 29 }
    ensures { result ≡ length (posts_in entries.now) }
{
    let mut count = 0;
    for entry in entries {
        count += entry.posts.as_slice().len() as u32;
    }
    count
}

/// Puts the end of a trace of so many frames.
#[tactic(auto, using(byte_port::proofs::Paging::pieces))]
fn put_end<K: Sink>(page: &mut Page, sink: &mut K, count: u32) -> Result<(), Failed>
    ensures wrote { Wrote result (K.held sink.old) page.old (K.held sink.new) page.new (end_bytes count) }
    ensures cause { HasCause (K.faults sink.old) (K.faults sink.new) result }
{
    let mut end: ArrayVec<u8, 8> = ArrayVec::new();
    put!(&mut end; u32 0, u32 count);
    page.put(sink, end.as_slice())
}

/// Puts the trace of a history of fewer than 2^29 entries, frame by frame, behind what is on the page.
/// Where the sink fails, a front of it stands there.
#[tactic(auto, using(byte_port::proofs::Paging::pieces))]
pub fn write_trace<K: Sink>(page: &mut Page, sink: &mut K, entries: &[Entry]) -> Result<(), Failed>
    requires few { length entries.now < 2 ^ 29 }
    requires writable { AreWritable entries.now }
    ensures wrote { Wrote result (K.held sink.old) page.old (K.held sink.new) page.new (file_of (posts_in entries.now)) }
    ensures cause { HasCause (K.faults sink.old) (K.faults sink.new) result }
{
    page.put(sink, &MAGIC)?;
    put_entries(page, sink, entries)?;
    put_end(page, sink, count_posts(entries))
}

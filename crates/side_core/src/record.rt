//! One connection at a side: its route and its end, and what the end posts.
ghost use Rattle.std.specs.Prelude.{◌≡◌, ◌+◌, ◌++◌, ◌≤◌, ◌<◌, ◌^◌, true, Some, length, IsSome};
ghost use Rattle.smc_num.specs.Places.{rmb_at, element_start as start_of};
ghost use Rattle.pipe_model.specs.Ends.{Half, comes_up, settle};
ghost use Rattle.pipe_model.specs.Posts.{offered_place};
ghost use Rattle.conn_end.specs.Kept.{Represents};
ghost use Rattle.conn_end.specs.Batches.{may_post};
ghost use Rattle.side_core.specs.Changes.{MayCome, Makes, Tells};
ghost use Rattle.side_core.specs.Inside.{IsSet, IsOffered};
ghost use Rattle.side_core.specs.Slots.{conn_of};
ghost use Rattle.side_core.specs.Posting.{due_posts, IsOnWay, piece_posts, message_posts, posts_of_batch, SameCourse};

use crate::change::Change;
use crate::route::{Route, Way};
use arrayvec::ArrayVec;
use clc_wire::Offer;
use conn_end::{Batch, ConnEnd, EndReply, Piece};
use pipe_model::Post;
use smc_num::LinkId;

// How far apart the addresses of two RMBs are.
const RMB: u64 = 0x1_0000_0000;

/// What a side keeps of a connection: its route and its end.
#[derive(Drop)]
pub struct Record {
    pub route: Route,
    pub end: ConnEnd,
}

impl Record {
    /// It is established on the link of its route, and what is due then is posted.
    pub fn rise(&mut self, size: u32, way: Way, posts: &mut ArrayVec<Post, 6>)
        requires set { IsSet (conn_of self.old) }
        requires size { size ≡ self.old.end.size }
        requires number { self.old.end.course.number < 2 ^ 63 }
        requires room { length posts.old.items ≤ 3 }
        ensures same { SameCourse (record (conn_of self.old) { route = record self.old.route { up = true } }) (conn_of self.new) }
        ensures set { IsSet (conn_of self.new) }
        ensures end { (h : Half) → Represents self.old.end h → way.live ≡ may_post (comes_up self.old.route.link h)
            → Represents self.new.end (settle self.old.end.course.depth (comes_up self.old.route.link h)) }
        ensures posts { (h : Half) → Represents self.old.end h → way.live ≡ may_post (comes_up self.old.route.link h)
            → posts.new.items ≡ posts.old.items ++ due_posts self.old.end.size self.old.end.course.depth way.side way.key self.old.route.peer (comes_up self.old.route.link h) }
    {
        self.route.up = true;
        self.post_due(size, way, posts);
    }

    /// Something happens to its end, and what is due then is posted. What is no call is answered with
    /// `Done`.
    pub fn change(
        &mut self,
        change: Change<'_>,
        size: u32,
        way: Way,
        posts: &mut ArrayVec<Post, 6>,
    ) -> EndReply
        requires set { IsSet (conn_of self.old) }
        requires size { size ≡ self.old.end.size }
        requires may { MayCome change self.old.end }
        requires number { self.old.end.course.number < 2 ^ 63 }
        requires room { length posts.old.items ≤ 3 }
        ensures same { SameCourse (conn_of self.old) (conn_of self.new) }
        ensures set { IsSet (conn_of self.new) }
        ensures end { (h : Half) (act : Half → Half) → Makes self.old.end.size change.entry self.old.end h act → way.live ≡ may_post (act h)
            → Represents self.new.end (settle self.old.end.course.depth (act h)) }
        ensures posts { (h : Half) (act : Half → Half) → Makes self.old.end.size change.entry self.old.end h act → IsOnWay self.old.route.link way (act h)
            → posts.new.items ≡ posts.old.items ++ due_posts self.old.end.size self.old.end.course.depth way.side way.key self.old.route.peer (act h) }
        ensures told { (h : Half) → Represents self.old.end h → Tells self.old.end.size change.entry h result }
    {
        let reply = change.make(&mut self.end);
        self.post_due(size, way, posts);
        reply
    }

    // Posts what is due.
    fn post_due(&mut self, size: u32, way: Way, posts: &mut ArrayVec<Post, 6>)
        requires set { IsSet (conn_of self.old) }
        requires size { size ≡ self.old.end.size }
        requires number { self.old.end.course.number < 2 ^ 63 }
        requires room { length posts.old.items ≤ 3 }
        ensures same { SameCourse (conn_of self.old) (conn_of self.new) }
        ensures set { IsSet (conn_of self.new) }
        ensures end { (h : Half) → Represents self.old.end h → way.live ≡ may_post h → Represents self.new.end (settle self.old.end.course.depth h) }
        ensures posts { (h : Half) → Represents self.old.end h → IsOnWay self.old.route.link way h
            → posts.new.items ≡ posts.old.items ++ due_posts self.old.end.size self.old.end.course.depth way.side way.key self.old.route.peer h }
    {
        let Some(batch) = self.end.next_batch(way.live) else {
            return;
        };
        let Some(offer) = self.route.peer else {
            return;
        };
        push_batch(&batch, size, self.route.link, &offer, way, posts);
    }
}

// Where the element begins that an offer names.
pub fn element_start(offer: &Offer, size: u32) -> u64
    requires rmb { rmb_at offer.now.address < 256 }
    requires index { 1 ≤ offer.now.index }
    ensures start { result ≡ start_of size (offered_place offer.now) }
    ensures low { result < 2 ^ 42 }
{
    let elements = (offer.index - 1) as u64 * size as u64;
    offer.address / RMB * RMB + elements
}

// Posts the writes of a batch, and its message behind them.
fn push_batch(
    batch: &Batch,
    size: u32,
    link: LinkId,
    offer: &Offer,
    way: Way,
    posts: &mut ArrayVec<Post, 6>,
)
    requires rmb { rmb_at offer.now.address < 256 }
    requires index { 1 ≤ offer.now.index }
    requires room { length posts.old.items ≤ 3 }
    ensures { posts.new.items ≡ posts.old.items ++ posts_of_batch size way link offer.now batch.now }
{
    let start = element_start(offer, size);
    push_piece(batch.pieces.0, link, start, way, posts);
    push_piece(batch.pieces.1, link, start, way, posts);
    if let Some(message) = batch.message {
        posts.push(Post::Cdc {
            from: way.side,
            link,
            message,
        });
    }
}

// Posts the write of a piece that has bytes.
fn push_piece(piece: Piece, link: LinkId, start: u64, way: Way, posts: &mut ArrayVec<Post, 6>)
    requires low { start < 2 ^ 42 }
    requires room { length posts.old.items < 6 }
    ensures posts { posts.new.items ≡ posts.old.items ++ piece_posts way.side link way.key start piece }
    ensures few { length posts.new.items ≤ length posts.old.items + 1 }
{
    if piece.len == 0 {
        return;
    }
    posts.push(Post::Write {
        from: way.side,
        link,
        key: way.key,
        address: start + piece.place as u64,
        len: piece.len,
    });
}

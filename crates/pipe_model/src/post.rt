//! What the two managers send: remote writes, CDC, LLC and CLC messages.
ghost use Rattle.std.specs.Prelude.{◌≡◌, ◌≤◌, [], length};

use arrayvec::ArrayVec;
use cdc_wire::CdcMessage;
use clc_wire::ClcMessage;
use llc_wire::LlcMessage;
use smc_num::{LinkId, Side};
use std::marker::Model;

/// A post of the history: the number of its entry and its own in that entry, both from 1.
#[derive(Clone, Copy, Debug, PartialEq, Eq)]
pub struct PostRef {
    pub entry: u32,
    pub post: u8,
}

/// What a manager sends: on a link, or a CLC message on the TCP connection of a socket.
#[derive(Clone, Copy, Debug, PartialEq, Eq)]
pub enum Post {
    /// A remote write of `len` bytes to an address of the peer, under one of its keys.
    Write {
        from: Side,
        link: LinkId,
        key: u32,
        address: u64,
        len: u32,
    },
    Cdc {
        from: Side,
        link: LinkId,
        message: CdcMessage,
    },
    Llc {
        from: Side,
        link: LinkId,
        message: LlcMessage,
    },
    /// A CLC message; `link` is the one that an Accept or a Confirm is about.
    Clc {
        from: Side,
        s: u32,
        link: Option<LinkId>,
        message: ClcMessage,
    },
}

impl Default for Post {
    /// A write of nothing, which stands for no post.
    fn default() -> Post {
        Post::Write {
            from: Side::A,
            link: LinkId {
                group: 0,
                slot: 0,
                incarnation: 0,
            },
            key: 0,
            address: 0,
            len: 0,
        }
    }
}

/// A post with its place in the history, as a link carries it.
#[derive(Clone, Copy, Debug, PartialEq, Eq)]
pub struct Placed {
    pub at: PostRef,
    pub post: Post,
}

/// The posts of one entry, at most six, in order. Contracts see the list of them.
#[derive(Drop)]
pub struct Posts {
    posts: ArrayVec<Post, 6>,
}

impl Model for Posts {
    ghost use Rattle.std.specs.Prelude.{List};
    ghost use Rattle.pipe_model.specs.declared.post.Post.{Post};

    ghost Value = { List Post };

    ghost view = { λ p. p.posts.items };
}

impl Posts {
    /// No posts.
    pub fn new() -> Posts
        ensures { result ≡ [] }
    {
        Posts {
            posts: ArrayVec::new(),
        }
    }

    /// These posts.
    pub fn of(posts: ArrayVec<Post, 6>) -> Posts
        ensures { result ≡ posts.items }
    {
        Posts { posts }
    }

    /// The posts, the first one first.
    pub fn as_slice(&self) -> &[Post]
        ensures posts { result.now ≡ self.now }
        ensures few { length result.now ≤ 6 }
    {
        self.posts.as_slice()
    }
}

//! Messages that are read where the bytes are their one spelling.

ghost use Rattle.std.specs.Prelude.{◌≡◌, ◌≤◌, length, IfOk, option_map, true};
ghost use Rattle.clc_wire.specs.Clc as clc;
ghost use Rattle.llc_wire.specs.Llc as llc;
ghost use Rattle.pipe_model.specs.declared.post.Post.TheVariants.{Cdc as ACdc, Llc as AnLlc, Clc as AClc};
ghost use Rattle.wire_trace.specs.Heads.{allows_length};
ghost use Rattle.wire_trace.specs.Messages.{side_of, link_named, clc_if, clc_in, llc_if, llc_in, cdc_if, cdc_in, write_in, post_in};

use crate::head::{CDC, CLC, Head, LLC, is_no_link};
use arrayvec::ArrayVec;
use cdc_wire::{CdcFault, CdcMessage, read_cdc, write_cdc};
use clc_wire::{ClcFault, ClcMessage, read_clc, write_clc};
use field_cases::get;
use llc_wire::{LlcFault, LlcMessage, read_llc, write_llc};
use pipe_model::{LinkId, Post, Side};

/// The side of a byte.
fn side_of(code: u8) -> Side
    ensures { result ≡ side_of code }
{
    if code == 0 { Side::A } else { Side::B }
}

/// The link that a CLC message names, if it names one.
fn link_named(link: LinkId) -> Option<LinkId>
    ensures { result ≡ link_named link }
{
    if is_no_link(link) { None } else { Some(link) }
}

/// All of 44 bytes.
fn whole(bytes: &[u8]) -> [u8; 44]
    requires { length bytes.now ≡ 44 }
    ensures { result ≡ bytes.now }
{
    let mut all = [0; 44];
    all.copy_from_slice(bytes);
    all
}

/// The CLC message that was read, where the bytes are its one spelling.
fn clc_if(read: Result<(ClcMessage, usize), ClcFault>, bytes: &[u8]) -> Option<ClcMessage>
    requires { IfOk read (λ found. clc.Fits found.0) }
    ensures { result ≡ clc_if bytes.now read }
{
    match read {
        Ok((message, _)) => {
            let mut text: ArrayVec<u8, 68> = ArrayVec::new();
            write_clc(&message, &mut text);
            if text.as_slice() == bytes {
                Some(message)
            } else {
                None
            }
        }
        Err(_) => None,
    }
}

/// The CLC message of which the bytes are the one spelling.
fn clc_in(bytes: &[u8]) -> Option<ClcMessage>
    ensures { result ≡ clc_in bytes.now }
{
    clc_if(read_clc(bytes), bytes)
}

/// The LLC message that was read, where the bytes are its one spelling.
fn llc_if(read: Result<LlcMessage, LlcFault>, bytes: &[u8]) -> Option<LlcMessage>
    requires { IfOk read llc.Fits }
    ensures { result ≡ llc_if bytes.now read }
{
    match read {
        Ok(message) => {
            let text = write_llc(&message);
            if text.as_slice() == bytes {
                Some(message)
            } else {
                None
            }
        }
        Err(_) => None,
    }
}

/// The LLC message of which the bytes are the one spelling.
fn llc_in(bytes: &[u8]) -> Option<LlcMessage>
    requires { length bytes.now ≡ 44 }
    ensures { result ≡ llc_in bytes.now }
{
    llc_if(read_llc(&whole(bytes)), bytes)
}

/// The CDC message that was read, where the bytes are its one spelling.
fn cdc_if(read: Result<CdcMessage, CdcFault>, bytes: &[u8]) -> Option<CdcMessage>
    ensures { result ≡ cdc_if bytes.now read }
{
    match read {
        Ok(message) => {
            let text = write_cdc(&message);
            if text.as_slice() == bytes {
                Some(message)
            } else {
                None
            }
        }
        Err(_) => None,
    }
}

/// The CDC message of which the bytes are the one spelling.
fn cdc_in(bytes: &[u8]) -> Option<CdcMessage>
    requires { length bytes.now ≡ 44 }
    ensures { result ≡ cdc_in bytes.now }
{
    cdc_if(read_cdc(&whole(bytes)), bytes)
}

/// The remote write of these bytes.
fn write_in(head: &Head, bytes: &[u8]) -> Post
    requires { 16 ≤ length bytes.now }
    ensures { result ≡ write_in head.now bytes.now }
{
    Post::Write {
        from: side_of(head.side),
        link: head.link,
        key: get!(bytes; u32 at 0),
        address: get!(bytes; u64 at 4),
        len: get!(bytes; u32 at 12),
    }
}

/// The post of a CLC message.
fn clc_post(head: &Head, message: Option<ClcMessage>) -> Option<Post>
    ensures { result ≡ option_map (λ m. AClc (side_of head.now.side) head.now.socket (link_named head.now.link) m) message }
{
    match message {
        Some(message) => Some(Post::Clc {
            from: side_of(head.side),
            s: head.socket,
            link: link_named(head.link),
            message,
        }),
        None => None,
    }
}

/// The post of an LLC message.
fn llc_post(head: &Head, message: Option<LlcMessage>) -> Option<Post>
    ensures { result ≡ option_map (λ m. AnLlc (side_of head.now.side) head.now.link m) message }
{
    match message {
        Some(message) => Some(Post::Llc {
            from: side_of(head.side),
            link: head.link,
            message,
        }),
        None => None,
    }
}

/// The post of a CDC message.
fn cdc_post(head: &Head, message: Option<CdcMessage>) -> Option<Post>
    ensures { result ≡ option_map (λ m. ACdc (side_of head.now.side) head.now.link m) message }
{
    match message {
        Some(message) => Some(Post::Cdc {
            from: side_of(head.side),
            link: head.link,
            message,
        }),
        None => None,
    }
}

/// The post of a head, where the bytes behind it are the one spelling of a message of its kind.
#[tactic(auto, unfolding(crate::specs::Messages::post_in))]
pub fn read_post(head: &Head, bytes: &[u8]) -> Option<Post>
    requires allowed { allows_length head.now.kind head.now.len ≡ true }
    requires whole { length bytes.now ≡ head.now.len }
    ensures { result ≡ post_in head.now bytes.now }
{
    match head.kind {
        CLC => clc_post(head, clc_in(bytes)),
        LLC => llc_post(head, llc_in(bytes)),
        CDC => cdc_post(head, cdc_in(bytes)),
        _ => Some(write_in(head, bytes)),
    }
}

//! A page of text on its way to a sink.
ghost use Rattle.std.specs.Prelude.{◌≡◌, ◌≤◌, ◌++◌, ◌+◌, [], length, drop, true, IfOk, OnOk, vec_capacity};
ghost use Rattle.byte_port.specs.Causes.{HasCause, Grew};
ghost use Rattle.byte_port.specs.Pages.{Went, Stands, Wrote};

use crate::memory::{NoMemory, append_within};
use crate::{Failed, Sink, write_all};
use std::alloc::Global;
use std::marker::Model;

/// A page has so many bytes.
pub const PAGE_BYTES: usize = 65_536;

/// The text that was put and that no sink has taken yet. Its memory is taken when it is made, so that
/// no later call asks for any.
#[derive(Drop)]
pub struct Page {
    bytes: Vec<u8>,
}

impl Model for Page {
    ghost use Rattle.std.specs.Prelude.{◌≤◌, List, ℕ, length, vec_capacity};
    ghost use Rattle.byte_port.specs.declared.page.TheConstants.{PAGE_BYTES};

    ghost Value = { List ℕ };

    ghost view = { λ p. p.bytes.items };

    ghost invariant = { λ p. (length p.bytes.items ≤ PAGE_BYTES) × (PAGE_BYTES ≤ vec_capacity p.bytes) };
}

/// Sends the bytes behind the first `gone` to a sink, as far as it takes them.
fn send<K: Sink>(sink: &mut K, bytes: &[u8], gone: &mut usize) -> Result<(), Failed>
    requires { gone.old ≤ length bytes.now }
    ensures kept { Went (K.held sink.old) (drop gone.old bytes.now) (K.held sink.new) (drop gone.new bytes.now) [] }
    ensures bound { gone.new ≤ length bytes.now }
    ensures all { OnOk result (gone.new ≡ length bytes.now) }
    ensures cause { HasCause (K.faults sink.old) (K.faults sink.new) result }
{
    while *gone < bytes.len() {
        let count = sink.write(&bytes[*gone..])?;
        *gone += count;
    }
    Ok(())
}

/// Takes so many bytes off the front.
fn remove_front(bytes: &mut Vec<u8>, count: usize)
    requires { count ≤ length bytes.old.items }
    ensures items { bytes.new.items ≡ drop count bytes.old.items }
    ensures capacity { vec_capacity bytes.new ≡ vec_capacity bytes.old }
{
    let len = bytes.len();
    bytes.copy_within(count..len, 0);
    bytes.truncate(len - count);
}

impl Page {
    /// A page with nothing on it.
    pub fn new(alloc: Global) -> Result<Page, NoMemory>
        ensures { IfOk result (λ page. page ≡ []) }
    {
        match Vec::with_capacity(alloc, PAGE_BYTES) {
            Ok(bytes) => Ok(Page { bytes }),
            Err(_) => Err(NoMemory),
        }
    }

    /// Sends what is on the page to the sink. Where that fails, what the sink did not take stays on the
    /// page.
    #[tactic(auto, using(crate::proofs::Paging::stands))]
    pub fn flush<K: Sink>(&mut self, sink: &mut K) -> Result<(), Failed>
        ensures kept { Stands true (K.held sink.old) self.old (K.held sink.new) self.new [] }
        ensures empty { OnOk result (self.new ≡ []) }
        ensures cause { HasCause (K.faults sink.old) (K.faults sink.new) result }
    {
        let mut gone = 0;
        let sent = send(sink, &self.bytes, &mut gone);
        remove_front(&mut self.bytes, gone);
        sent
    }

    /// Puts a text for which there is room behind what is on the page.
    fn place(&mut self, text: &[u8])
        requires { length self.old + length text.now ≤ PAGE_BYTES }
        ensures { self.new ≡ self.old ++ text.now }
    {
        append_within(&mut self.bytes, text);
    }

    /// Puts a text on an empty page, or through to the sink where it is larger than a page.
    #[tactic(auto, using(crate::proofs::Paging::put_on, crate::proofs::Paging::gone_any))]
    fn begin<K: Sink>(&mut self, sink: &mut K, text: &[u8]) -> Result<(), Failed>
        requires { self.old ≡ [] }
        ensures wrote { Wrote result (K.held sink.old) [] (K.held sink.new) self.new text.now }
        ensures cause { HasCause (K.faults sink.old) (K.faults sink.new) result }
    {
        if text.len() > PAGE_BYTES {
            return write_all(sink, text);
        }
        self.place(text);
        Ok(())
    }

    /// Puts a text behind what is on the page. Where it does not fit, the page goes to the sink first,
    /// and a text that is larger than a page follows it. Where the sink fails, a front of the text
    /// stands behind what there was.
    #[tactic(auto, using(crate::proofs::Paging::put_on, crate::proofs::Paging::turned, crate::proofs::Paging::stuck))]
    pub fn put<K: Sink>(&mut self, sink: &mut K, text: &[u8]) -> Result<(), Failed>
        ensures wrote { Wrote result (K.held sink.old) self.old (K.held sink.new) self.new text.now }
        ensures cause { HasCause (K.faults sink.old) (K.faults sink.new) result }
    {
        if text.len() <= PAGE_BYTES - self.bytes.len() {
            self.place(text);
            return Ok(());
        }
        self.flush(sink)?;
        self.begin(sink, text)
    }
}

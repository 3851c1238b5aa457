//! Bytes, numbers, names and events, by way of a page.
ghost use Rattle.std.specs.Prelude.{◌≡◌, ◌++◌, ◌∷◌, ◌<◌, codes};
ghost use Rattle.std.specs.Fmt.{decimal};
ghost use Rattle.byte_port.specs.Causes.{HasCause};
ghost use Rattle.byte_port.specs.Pages.{Wrote};
ghost use Rattle.scene_text.specs.Spelling.{hex_digit, hex_byte, run_text, bytes_text, side_text, name_text, end_text, payload_part, event_text};
ghost use Rattle.smcr_calls.specs.Prints.{names_of};

use byte_port::{Failed, Page, Sink};
use itoa::Buffer;
use pipe_model::{End, Event, Side};

/// Puts a text.
#[tactic(auto, using(byte_port::proofs::Paging::pieces))]
pub fn put_text<K: Sink>(page: &mut Page, sink: &mut K, text: &str) -> Result<(), Failed>
    ensures wrote { Wrote result (K.held sink.old) page.old (K.held sink.new) page.new text.now }
    ensures cause { HasCause (K.faults sink.old) (K.faults sink.new) result }
{
    page.put(sink, text.as_bytes())
}

/// Puts a number in decimal digits.
#[tactic(auto, using(byte_port::proofs::Paging::pieces))]
pub fn put_number<K: Sink>(page: &mut Page, sink: &mut K, number: u64) -> Result<(), Failed>
    ensures wrote { Wrote result (K.held sink.old) page.old (K.held sink.new) page.new (decimal number) }
    ensures cause { HasCause (K.faults sink.old) (K.faults sink.new) result }
{
    let mut buffer = Buffer::new();
    put_text(page, sink, buffer.format(number))
}

/// A hexadecimal digit in lower case.
fn digit(value: u8) -> u8
    requires { value < 16 }
    ensures { result ≡ hex_digit value }
{
    if value < 10 {
        value + b'0'
    } else {
        value - 10 + b'a'
    }
}

/// Puts a byte in two hexadecimal digits.
#[tactic(auto, using(byte_port::proofs::Paging::pieces))]
pub fn put_hex<K: Sink>(page: &mut Page, sink: &mut K, byte: u8) -> Result<(), Failed>
    ensures wrote { Wrote result (K.held sink.old) page.old (K.held sink.new) page.new (hex_byte byte) }
    ensures cause { HasCause (K.faults sink.old) (K.faults sink.new) result }
{
    page.put(sink, &[digit(byte / 16), digit(byte % 16)])
}

/// Puts a run of one byte.
#[tactic(auto, using(byte_port::proofs::Paging::pieces))]
fn put_run<K: Sink>(page: &mut Page, sink: &mut K, byte: u8, count: usize) -> Result<(), Failed>
    ensures wrote { Wrote result (K.held sink.old) page.old (K.held sink.new) page.new (run_text (record { byte = byte; count = count })) }
    ensures cause { HasCause (K.faults sink.old) (K.faults sink.new) result }
{
    put_hex(page, sink, byte)?;
    if count != 1 {
        put_text(page, sink, "*")?;
        put_number(page, sink, count as u64)?;
    }
    Ok(())
}

/// Puts bytes in runs.
#[tactic(auto, using(byte_port::proofs::Paging::pieces))]
pub fn put_bytes<K: Sink>(page: &mut Page, sink: &mut K, bytes: &[u8]) -> Result<(), Failed>
    ensures wrote { Wrote result (K.held sink.old) page.old (K.held sink.new) page.new (bytes_text bytes.now) }
    ensures cause { HasCause (K.faults sink.old) (K.faults sink.new) result }
{
    if bytes.is_empty() {
        return put_text(page, sink, "-");
    }
    put_runs(page, sink, bytes[0], &bytes[1..])
}

/// Puts the runs of a byte and those that follow it.
#[tactic(auto, using(byte_port::proofs::Paging::pieces))]
fn put_runs<K: Sink>(page: &mut Page, sink: &mut K, first: u8, rest: &[u8]) -> Result<(), Failed>
    ensures wrote { Wrote result (K.held sink.old) page.old (K.held sink.new) page.new (bytes_text (first ∷ rest.now)) }
    ensures cause { HasCause (K.faults sink.old) (K.faults sink.new) result }
{
    let mut current = first;
    let mut count: usize = 1;
    for byte in rest {
        if *byte == current {
            count += 1;
        } else {
            put_run(page, sink, current, count)?;
            put_text(page, sink, ",")?;
            current = *byte;
            count = 1;
        }
    }
    put_run(page, sink, current, count)
}

/// Puts the letter of a side.
#[tactic(auto, using(byte_port::proofs::Paging::pieces))]
pub fn put_side<K: Sink>(page: &mut Page, sink: &mut K, side: Side) -> Result<(), Failed>
    ensures wrote { Wrote result (K.held sink.old) page.old (K.held sink.new) page.new (side_text side) }
    ensures cause { HasCause (K.faults sink.old) (K.faults sink.new) result }
{
    match side {
        Side::A => put_text(page, sink, "A"),
        Side::B => put_text(page, sink, "B"),
    }
}

/// The name of this number; an empty one where there is none.
fn name_of(names: &[String], number: u32) -> &str
    ensures { result.now ≡ name_text (names_of names.now) number }
{
    match names.get(number as usize) {
        Some(name) => name.as_str(),
        None => "",
    }
}

/// Puts the name of this number, if there is one.
#[tactic(auto, using(byte_port::proofs::Paging::pieces))]
pub fn put_name<K: Sink>(
    page: &mut Page,
    sink: &mut K,
    names: &[String],
    number: u32,
) -> Result<(), Failed>
    ensures wrote { Wrote result (K.held sink.old) page.old (K.held sink.new) page.new (name_text (names_of names.now) number) }
    ensures cause { HasCause (K.faults sink.old) (K.faults sink.new) result }
{
    put_text(page, sink, name_of(names, number))
}

/// Puts an end: a side, a point and the socket's name.
#[tactic(auto, using(byte_port::proofs::Paging::pieces))]
fn put_end<K: Sink>(page: &mut Page, sink: &mut K, names: &[String], end: End) -> Result<(), Failed>
    ensures wrote { Wrote result (K.held sink.old) page.old (K.held sink.new) page.new (end_text (names_of names.now) end) }
    ensures cause { HasCause (K.faults sink.old) (K.faults sink.new) result }
{
    put_side(page, sink, end.side)?;
    put_text(page, sink, ".")?;
    put_name(page, sink, names, end.s)
}

/// The bytes from a place on, at most so many, as far as there are any.
#[tactic(auto, using(std::proofs::lemmas::List::take_min, std::proofs::lemmas::List::drop_min))]
fn part(bytes: &[u8], at: u32, len: u32) -> &[u8]
    ensures { result.now ≡ payload_part bytes.now at len }
{
    let rest = &bytes[(at as usize).min(bytes.len())..];
    &rest[..(len as usize).min(rest.len())]
}

/// Puts some of the bytes in runs.
#[tactic(auto, using(byte_port::proofs::Paging::pieces))]
pub fn put_part<K: Sink>(
    page: &mut Page,
    sink: &mut K,
    bytes: &[u8],
    at: u32,
    len: u32,
) -> Result<(), Failed>
    ensures wrote { Wrote result (K.held sink.old) page.old (K.held sink.new) page.new (bytes_text (payload_part bytes.now at len)) }
    ensures cause { HasCause (K.faults sink.old) (K.faults sink.new) result }
{
    put_bytes(page, sink, part(bytes, at, len))
}

/// Puts a word, a space and a call's end.
#[tactic(auto, using(byte_port::proofs::Paging::pieces))]
fn put_call<K: Sink>(
    page: &mut Page,
    sink: &mut K,
    word: &str,
    names: &[String],
    end: End,
) -> Result<(), Failed>
    ensures wrote { Wrote result (K.held sink.old) page.old (K.held sink.new) page.new (word.now ++ end_text (names_of names.now) end) }
    ensures cause { HasCause (K.faults sink.old) (K.faults sink.new) result }
{
    put_text(page, sink, word)?;
    put_end(page, sink, names, end)
}

/// Puts a word and a slot.
#[tactic(auto, using(byte_port::proofs::Paging::pieces))]
fn put_slot<K: Sink>(page: &mut Page, sink: &mut K, word: &str, slot: u8) -> Result<(), Failed>
    ensures wrote { Wrote result (K.held sink.old) page.old (K.held sink.new) page.new (word.now ++ decimal slot) }
    ensures cause { HasCause (K.faults sink.old) (K.faults sink.new) result }
{
    put_text(page, sink, word)?;
    put_number(page, sink, slot as u64)
}

/// Puts a word, a slot, a space and a side.
#[tactic(auto, using(byte_port::proofs::Paging::pieces))]
fn put_slot_side<K: Sink>(
    page: &mut Page,
    sink: &mut K,
    word: &str,
    slot: u8,
    side: Side,
) -> Result<(), Failed>
    ensures wrote { Wrote result (K.held sink.old) page.old (K.held sink.new) page.new (word.now ++ (decimal slot ++ (codes " " ++ side_text side))) }
    ensures cause { HasCause (K.faults sink.old) (K.faults sink.new) result }
{
    put_text(page, sink, word)?;
    put_number(page, sink, slot as u64)?;
    put_text(page, sink, " ")?;
    put_side(page, sink, side)
}

/// Puts a word, a side, a space and a slot.
#[tactic(auto, using(byte_port::proofs::Paging::pieces))]
fn put_side_slot<K: Sink>(
    page: &mut Page,
    sink: &mut K,
    word: &str,
    side: Side,
    slot: u8,
) -> Result<(), Failed>
    ensures wrote { Wrote result (K.held sink.old) page.old (K.held sink.new) page.new (word.now ++ (side_text side ++ (codes " " ++ decimal slot))) }
    ensures cause { HasCause (K.faults sink.old) (K.faults sink.new) result }
{
    put_text(page, sink, word)?;
    put_side(page, sink, side)?;
    put_slot(page, sink, " ", slot)
}

/// Puts an event as a line of a scene.
#[tactic(auto, using(byte_port::proofs::Paging::pieces))]
pub fn put_event<K: Sink>(
    page: &mut Page,
    sink: &mut K,
    names: &[String],
    payload: &[u8],
    event: Event,
) -> Result<(), Failed>
    ensures wrote { Wrote result (K.held sink.old) page.old (K.held sink.new) page.new (event_text (names_of names.now) payload.now event) }
    ensures cause { HasCause (K.faults sink.old) (K.faults sink.new) result }
{
    match event {
        Event::Open(s) => {
            put_text(page, sink, "open ")?;
            put_name(page, sink, names, s)
        }
        Event::Raw { s, at, len } => {
            put_text(page, sink, "raw ")?;
            put_name(page, sink, names, s)?;
            put_text(page, sink, " ")?;
            put_part(page, sink, payload, at, len)
        }
        Event::Write { end, at, len } => {
            put_text(page, sink, "write ")?;
            put_end(page, sink, names, end)?;
            put_text(page, sink, " ")?;
            put_part(page, sink, payload, at, len)
        }
        Event::Read { end, len } => {
            put_text(page, sink, "read ")?;
            put_end(page, sink, names, end)?;
            put_text(page, sink, " ")?;
            put_number(page, sink, len as u64)
        }
        Event::Finish(end) => put_call(page, sink, "finish ", names, end),
        Event::Close(end) => put_call(page, sink, "close ", names, end),
        Event::Abort(end) => put_call(page, sink, "abort ", names, end),
        Event::Await(end) => put_call(page, sink, "await ", names, end),
        Event::Clc { s, dir } => {
            put_text(page, sink, "clc ")?;
            put_name(page, sink, names, s)?;
            put_text(page, sink, " ")?;
            put_side(page, sink, dir)
        }
        Event::Deliver { slot, dir } => put_slot_side(page, sink, "deliver ", slot, dir),
        Event::Complete { slot, dir } => put_slot_side(page, sink, "complete ", slot, dir),
        Event::Swallow { slot, dir } => put_slot_side(page, sink, "swallow ", slot, dir),
        Event::Cut(slot) => put_slot(page, sink, "cut ", slot),
        Event::Heal(slot) => put_slot(page, sink, "heal ", slot),
        Event::Report { side, slot } => put_side_slot(page, sink, "report ", side, slot),
        Event::Move(end) => put_call(page, sink, "move ", names, end),
        Event::Grow => put_text(page, sink, "grow"),
        Event::Test { side, slot } => put_side_slot(page, sink, "test ", side, slot),
        Event::Trim(side) => {
            put_text(page, sink, "trim ")?;
            put_side(page, sink, side)
        }
    }
}

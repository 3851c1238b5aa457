//! Bytes, numbers, names and events, appended to one buffer.
ghost use Rattle.std.specs.Prelude.{◌≡◌, ◌++◌, ◌∷◌, ◌<◌, OnOk, codes};
ghost use Rattle.std.specs.Fmt.{decimal};
ghost use Rattle.scene_text.specs.Spelling.{hex_digit, hex_byte, run_text, bytes_text, side_text, name_text, end_text, payload_part, event_text};
ghost use Rattle.scene_text.specs.Printing.{names_of};

use itoa::Buffer;
use pipe_model::{End, Event, Side};
use std::alloc::AllocError;

/// Appends a text.
pub fn push_text(out: &mut Vec<u8>, text: &str) -> Result<(), AllocError>
    ensures { OnOk result (out.new.items ≡ out.old.items ++ text.now) }
{
    out.extend_from_slice(text.as_bytes())
}

/// Appends a number in decimal digits.
pub fn push_number(out: &mut Vec<u8>, number: u64) -> Result<(), AllocError>
    ensures { OnOk result (out.new.items ≡ out.old.items ++ decimal number) }
{
    let mut buffer = Buffer::new();
    push_text(out, buffer.format(number))
}

/// A hexadecimal digit in lower case.
fn digit(value: u8) -> u8
    requires { value < 16 }
    ensures { result ≡ hex_digit value }
{
    if value < 10 {
        value + b'0'
    } else {
        value - 10 + b'a'
    }
}

/// Appends a byte in two hexadecimal digits.
pub fn push_hex(out: &mut Vec<u8>, byte: u8) -> Result<(), AllocError>
    ensures { OnOk result (out.new.items ≡ out.old.items ++ hex_byte byte) }
{
    out.extend_from_slice(&[digit(byte / 16), digit(byte % 16)])
}

/// Appends a run of one byte.
fn push_run(out: &mut Vec<u8>, byte: u8, count: usize) -> Result<(), AllocError>
    ensures { OnOk result (out.new.items ≡ out.old.items ++ run_text (record { byte = byte; count = count })) }
{
    push_hex(out, byte)?;
    if count != 1 {
        push_text(out, "*")?;
        push_number(out, count as u64)?;
    }
    Ok(())
}

/// Appends bytes in runs.
pub fn push_bytes(out: &mut Vec<u8>, bytes: &[u8]) -> Result<(), AllocError>
    ensures { OnOk result (out.new.items ≡ out.old.items ++ bytes_text bytes.now) }
{
    if bytes.is_empty() {
        return push_text(out, "-");
    }
    push_runs(out, bytes[0], &bytes[1..])
}

/// Appends the runs of a byte and those that follow it.
fn push_runs(out: &mut Vec<u8>, first: u8, rest: &[u8]) -> Result<(), AllocError>
    ensures { OnOk result (out.new.items ≡ out.old.items ++ bytes_text (first ∷ rest.now)) }
{
    let mut current = first;
    let mut count: usize = 1;
    for byte in rest {
        if *byte == current {
            count += 1;
        } else {
            push_run(out, current, count)?;
            push_text(out, ",")?;
            current = *byte;
            count = 1;
        }
    }
    push_run(out, current, count)
}

/// Appends the letter of a side.
pub fn push_side(out: &mut Vec<u8>, side: Side) -> Result<(), AllocError>
    ensures { OnOk result (out.new.items ≡ out.old.items ++ side_text side) }
{
    match side {
        Side::A => push_text(out, "A"),
        Side::B => push_text(out, "B"),
    }
}

/// Appends the name of this number, if there is one.
pub fn push_name(out: &mut Vec<u8>, names: &[String], number: u32) -> Result<(), AllocError>
    ensures { OnOk result (out.new.items ≡ out.old.items ++ name_text (names_of names.now) number) }
{
    match names.get(number as usize) {
        Some(name) => push_text(out, name.as_str()),
        None => Ok(()),
    }
}

/// Appends an end: a side, a point and the socket's name.
fn push_end(out: &mut Vec<u8>, names: &[String], end: End) -> Result<(), AllocError>
    ensures { OnOk result (out.new.items ≡ out.old.items ++ end_text (names_of names.now) end) }
{
    push_side(out, end.side)?;
    push_text(out, ".")?;
    push_name(out, names, end.s)
}

/// The bytes from a place on, at most so many, as far as there are any.
#[tactic(auto, using(std::proofs::lemmas::List::take_min, std::proofs::lemmas::List::drop_min))]
fn part(bytes: &[u8], at: u32, len: u32) -> &[u8]
    ensures { result.now ≡ payload_part bytes.now at len }
{
    let rest = &bytes[(at as usize).min(bytes.len())..];
    &rest[..(len as usize).min(rest.len())]
}

/// Appends some of the bytes in runs.
pub fn push_part(out: &mut Vec<u8>, bytes: &[u8], at: u32, len: u32) -> Result<(), AllocError>
    ensures { OnOk result (out.new.items ≡ out.old.items ++ bytes_text (payload_part bytes.now at len)) }
{
    push_bytes(out, part(bytes, at, len))
}

/// Appends a word, a space and a call's end.
fn push_call(out: &mut Vec<u8>, word: &str, names: &[String], end: End) -> Result<(), AllocError>
    ensures { OnOk result (out.new.items ≡ out.old.items ++ (word.now ++ end_text (names_of names.now) end)) }
{
    push_text(out, word)?;
    push_end(out, names, end)
}

/// Appends a word and a slot.
fn push_slot(out: &mut Vec<u8>, word: &str, slot: u8) -> Result<(), AllocError>
    ensures { OnOk result (out.new.items ≡ out.old.items ++ (word.now ++ decimal slot)) }
{
    push_text(out, word)?;
    push_number(out, slot as u64)
}

/// Appends a word, a slot, a space and a side.
fn push_slot_side(out: &mut Vec<u8>, word: &str, slot: u8, side: Side) -> Result<(), AllocError>
    ensures { OnOk result (out.new.items ≡ out.old.items ++ (word.now ++ (decimal slot ++ (codes " " ++ side_text side)))) }
{
    push_slot(out, word, slot)?;
    push_text(out, " ")?;
    push_side(out, side)
}

/// Appends a word, a side, a space and a slot.
fn push_side_slot(out: &mut Vec<u8>, word: &str, side: Side, slot: u8) -> Result<(), AllocError>
    ensures { OnOk result (out.new.items ≡ out.old.items ++ (word.now ++ (side_text side ++ (codes " " ++ decimal slot)))) }
{
    push_text(out, word)?;
    push_side(out, side)?;
    push_slot(out, " ", slot)
}

/// Appends an event as a line of a scene.
pub fn push_event(
    out: &mut Vec<u8>,
    names: &[String],
    payload: &[u8],
    event: Event,
) -> Result<(), AllocError>
    ensures { OnOk result (out.new.items ≡ out.old.items ++ event_text (names_of names.now) payload.now event) }
{
    match event {
        Event::Open(s) => {
            push_text(out, "open ")?;
            push_name(out, names, s)
        }
        Event::Raw { s, at, len } => {
            push_text(out, "raw ")?;
            push_name(out, names, s)?;
            push_text(out, " ")?;
            push_part(out, payload, at, len)
        }
        Event::Write { end, at, len } => {
            push_call(out, "write ", names, end)?;
            push_text(out, " ")?;
            push_part(out, payload, at, len)
        }
        Event::Read { end, len } => {
            push_call(out, "read ", names, end)?;
            push_text(out, " ")?;
            push_number(out, len as u64)
        }
        Event::Finish(end) => push_call(out, "finish ", names, end),
        Event::Close(end) => push_call(out, "close ", names, end),
        Event::Abort(end) => push_call(out, "abort ", names, end),
        Event::Await(end) => push_call(out, "await ", names, end),
        Event::Clc { s, dir } => {
            push_text(out, "clc ")?;
            push_name(out, names, s)?;
            push_text(out, " ")?;
            push_side(out, dir)
        }
        Event::Deliver { slot, dir } => push_slot_side(out, "deliver ", slot, dir),
        Event::Complete { slot, dir } => push_slot_side(out, "complete ", slot, dir),
        Event::Swallow { slot, dir } => push_slot_side(out, "swallow ", slot, dir),
        Event::Cut(slot) => push_slot(out, "cut ", slot),
        Event::Heal(slot) => push_slot(out, "heal ", slot),
        Event::Report { side, slot } => push_side_slot(out, "report ", side, slot),
        Event::Move(end) => push_call(out, "move ", names, end),
        Event::Grow => push_text(out, "grow"),
        Event::Test { side, slot } => push_side_slot(out, "test ", side, slot),
        Event::Trim(side) => {
            push_text(out, "trim ")?;
            push_side(out, side)
        }
    }
}

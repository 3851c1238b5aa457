//! The command `show`: each line of its input is a message in hexadecimal digits, and the text has
//! one line for each, which tells the message or what is wrong with its bytes. All lines are read
//! before a byte of the text is put.
ghost use Rattle.std.specs.Prelude.{◌≡◌, ◌++◌, ◌<◌, ◌^◌, length, map, Ok, OnOk, IfErr, codes};
ghost use Rattle.std.specs.List.{flat_map};
ghost use Rattle.std.specs.Str.Lines.{lines};
ghost use Rattle.byte_port.specs.Causes.{HasCause};
ghost use Rattle.byte_port.specs.Pages.{Wrote};
ghost use Rattle.scene_text.specs.Words.{Gives, map_ok};
ghost use Rattle.scene_text.specs.Grammar.{IsFault};
ghost use Rattle.smcr_calls.specs.Answers.{Puts, IsCaused};
ghost use Rattle.smcr_calls.specs.ShowText.{clc_text, clc_fault_text, llc_text, llc_fault_text, cdc_text, cdc_fault_text, clc_line, llc_line, cdc_line};
ghost use Rattle.smcr_calls.specs.ShowLines.{protocol_of, bytes_of, frame_of, clc_message, message_line, row_line, shown, after_line, at_line, after_lines, show_answer, Leaves, reading_text};
ghost use Rattle.llc_wire.specs.Llc.{llc_read};
ghost use Rattle.cdc_wire.specs.Cdc.{cdc_read};

use crate::show_text::{put_cdc, put_cdc_fault, put_clc, put_clc_fault, put_llc, put_llc_fault};
use crate::spell::put_text;
use crate::top::{Status, refuse};
use byte_port::{Failed, Page, Sink};
use cdc_wire::{CdcFault, CdcMessage, read_cdc};
use clc_wire::{ClcFault, ClcMessage, read_clc};
use llc_wire::{LlcFault, LlcMessage, read_llc};
use scene_text::{
    LineFault, LineKind, SceneFault, are_printable, byte_of, cut, fault_at, is_passed_over,
    without_return, words_of,
};
use std::alloc::Global;

/// The protocol of a message.
#[derive(Clone, Copy, Debug, PartialEq, Eq)]
enum Protocol {
    Clc,
    Llc,
    Cdc,
}

fn protocol_of(word: &[u8]) -> Result<Protocol, LineKind>
    ensures { result ≡ protocol_of word.now }
{
    match word {
        b"clc" => Ok(Protocol::Clc),
        b"llc" => Ok(Protocol::Llc),
        b"cdc" => Ok(Protocol::Cdc),
        _ => Err(LineKind::Word),
    }
}

/// The bytes that hexadecimal digits spell.
fn bytes_of(alloc: Global, digits: &[u8]) -> Result<Vec<u8>, LineFault>
    ensures { Gives (λ bytes. bytes.items) result (bytes_of digits.now) }
{
    let mut bytes = Vec::new(alloc);
    let mut rest = digits;
    while let [high, low, after @ ..] = rest {
        let byte = byte_of(*high, *low)?;
        bytes.push(byte)?;
        rest = after;
    }
    if rest.is_empty() {
        Ok(bytes)
    } else {
        Err(LineFault::Bad(LineKind::Bytes))
    }
}

/// The 44 bytes of an LLC or a CDC message.
fn frame_of(bytes: &[u8]) -> Result<[u8; 44], LineKind>
    ensures { result ≡ frame_of bytes.now }
{
    if bytes.len() != 44 {
        return Err(LineKind::Bytes);
    }
    let mut frame = [0; 44];
    frame.copy_from_slice(bytes);
    Ok(frame)
}

/// A message that was read, or what is wrong with its bytes.
#[derive(Clone, Copy, Debug, PartialEq, Eq)]
enum Reading {
    Clc(Result<ClcMessage, ClcFault>),
    Llc(Result<LlcMessage, LlcFault>),
    Cdc(Result<CdcMessage, CdcFault>),
}

/// The CLC message at the front of bytes.
fn read_front(bytes: &[u8]) -> Result<ClcMessage, ClcFault>
    ensures { result ≡ clc_message bytes.now }
{
    match read_clc(bytes) {
        Ok((message, _)) => Ok(message),
        Err(fault) => Err(fault),
    }
}

/// The LLC message that bytes are.
fn read_link(bytes: &[u8]) -> Result<Reading, LineKind>
    ensures { map_ok reading_text result ≡ message_line Protocol.Llc bytes.now }
{
    let frame = frame_of(bytes)?;
    Ok(Reading::Llc(read_llc(&frame)))
}

/// The CDC message that bytes are.
fn read_data(bytes: &[u8]) -> Result<Reading, LineKind>
    ensures { map_ok reading_text result ≡ message_line Protocol.Cdc bytes.now }
{
    let frame = frame_of(bytes)?;
    Ok(Reading::Cdc(read_cdc(&frame)))
}

/// The message that bytes are in a protocol.
fn read_message(protocol: Protocol, bytes: &[u8]) -> Result<Reading, LineKind>
    ensures { map_ok reading_text result ≡ message_line protocol bytes.now }
{
    match protocol {
        Protocol::Clc => Ok(Reading::Clc(read_front(bytes))),
        Protocol::Llc => read_link(bytes),
        Protocol::Cdc => read_data(bytes),
    }
}

/// Reads the one argument behind a protocol's word.
fn read_arguments(
    alloc: Global,
    protocol: Protocol,
    arguments: &[&[u8]],
) -> Result<Reading, LineFault>
    ensures { Gives reading_text result (row_line protocol (map (λ w. w.now) arguments.now)) }
{
    match arguments {
        [digits] => {
            let bytes = bytes_of(alloc, digits)?;
            Ok(read_message(protocol, &bytes)?)
        }
        _ => Err(LineFault::Bad(LineKind::Count)),
    }
}

/// Reads a line that isn't passed over.
fn read_shown(alloc: Global, line: &[u8]) -> Result<Reading, LineFault>
    ensures { Gives reading_text result (shown line.now) }
{
    if !are_printable(line) {
        return Err(LineFault::Bad(LineKind::Char));
    }
    let words = words_of(alloc, line)?;
    match words.as_slice() {
        // Such a line has been passed over.
        [] => Err(LineFault::Bad(LineKind::Word)),
        [word, arguments @ ..] => {
            let protocol = protocol_of(word)?;
            read_arguments(alloc, protocol, arguments)
        }
    }
}

/// Reads one line, and keeps its message behind those of the lines before.
fn read_line(alloc: Global, readings: &mut Vec<Reading>, line: &[u8]) -> Result<(), LineFault>
    ensures { Leaves result (flat_map reading_text readings.new.items) (after_line line.now (flat_map reading_text readings.old.items)) }
{
    if is_passed_over(line) {
        return Ok(());
    }
    let reading = read_shown(alloc, line)?;
    readings.push(reading)?;
    Ok(())
}

/// Reads the line with this number.
fn read_line_at(
    alloc: Global,
    readings: &mut Vec<Reading>,
    number: u32,
    line: &[u8],
) -> Result<(), SceneFault>
    ensures ok { OnOk result (at_line number (after_line line.now (flat_map reading_text readings.old.items)) ≡ Ok (flat_map reading_text readings.new.items)) }
    ensures err { IfErr result (λ fault. IsFault fault (at_line number (after_line line.now (flat_map reading_text readings.old.items)))) }
{
    read_line(alloc, readings, line).map_err(|fault| fault_at(number, fault))
}

/// Reads the lines of a text.
fn read_lines(alloc: Global, readings: &mut Vec<Reading>, text: &[u8]) -> Result<(), SceneFault>
    requires { length text.now < 2 ^ 32 }
    ensures ok { OnOk result (after_lines 1 (lines text.now) (flat_map reading_text readings.old.items) ≡ Ok (flat_map reading_text readings.new.items)) }
    ensures err { IfErr result (λ fault. IsFault fault (after_lines 1 (lines text.now) (flat_map reading_text readings.old.items))) }
{
    let mut number = 0u32;
    let mut rest = text;
    while let Some((line, after)) = cut(rest, b'\n') {
        number += 1;
        read_line_at(alloc, readings, number, without_return(line))?;
        rest = after;
    }
    if !rest.is_empty() {
        read_line_at(alloc, readings, number + 1, rest)?;
    }
    Ok(())
}

/// Puts the line of a CLC message.
#[tactic(auto, using(byte_port::proofs::Paging::pieces))]
fn put_clc_message_line<K: Sink>(
    page: &mut Page,
    sink: &mut K,
    message: &ClcMessage,
) -> Result<(), Failed>
    ensures wrote { Wrote result (K.held sink.old) page.old (K.held sink.new) page.new (clc_text message.now ++ codes "\n") }
    ensures cause { HasCause (K.faults sink.old) (K.faults sink.new) result }
{
    put_clc(page, sink, message)?;
    put_text(page, sink, "\n")
}

/// Puts the line of what is wrong with the bytes of a CLC message.
#[tactic(auto, using(byte_port::proofs::Paging::pieces))]
fn put_clc_refusal_line<K: Sink>(
    page: &mut Page,
    sink: &mut K,
    fault: ClcFault,
) -> Result<(), Failed>
    ensures wrote { Wrote result (K.held sink.old) page.old (K.held sink.new) page.new (clc_fault_text fault ++ codes "\n") }
    ensures cause { HasCause (K.faults sink.old) (K.faults sink.new) result }
{
    put_clc_fault(page, sink, fault)?;
    put_text(page, sink, "\n")
}

/// Puts the line of an LLC message.
#[tactic(auto, using(byte_port::proofs::Paging::pieces))]
fn put_llc_message_line<K: Sink>(
    page: &mut Page,
    sink: &mut K,
    message: &LlcMessage,
) -> Result<(), Failed>
    ensures wrote { Wrote result (K.held sink.old) page.old (K.held sink.new) page.new (llc_text message.now ++ codes "\n") }
    ensures cause { HasCause (K.faults sink.old) (K.faults sink.new) result }
{
    put_llc(page, sink, message)?;
    put_text(page, sink, "\n")
}

/// Puts the line of what is wrong with the bytes of an LLC message.
#[tactic(auto, using(byte_port::proofs::Paging::pieces))]
fn put_llc_refusal_line<K: Sink>(
    page: &mut Page,
    sink: &mut K,
    fault: LlcFault,
) -> Result<(), Failed>
    ensures wrote { Wrote result (K.held sink.old) page.old (K.held sink.new) page.new (llc_fault_text fault ++ codes "\n") }
    ensures cause { HasCause (K.faults sink.old) (K.faults sink.new) result }
{
    put_llc_fault(page, sink, fault)?;
    put_text(page, sink, "\n")
}

/// Puts the line of a CDC message.
#[tactic(auto, using(byte_port::proofs::Paging::pieces))]
fn put_cdc_message_line<K: Sink>(
    page: &mut Page,
    sink: &mut K,
    message: &CdcMessage,
) -> Result<(), Failed>
    ensures wrote { Wrote result (K.held sink.old) page.old (K.held sink.new) page.new (cdc_text message.now ++ codes "\n") }
    ensures cause { HasCause (K.faults sink.old) (K.faults sink.new) result }
{
    put_cdc(page, sink, message)?;
    put_text(page, sink, "\n")
}

/// Puts the line of what is wrong with the bytes of a CDC message.
#[tactic(auto, using(byte_port::proofs::Paging::pieces))]
fn put_cdc_refusal_line<K: Sink>(
    page: &mut Page,
    sink: &mut K,
    fault: CdcFault,
) -> Result<(), Failed>
    ensures wrote { Wrote result (K.held sink.old) page.old (K.held sink.new) page.new (cdc_fault_text fault ++ codes "\n") }
    ensures cause { HasCause (K.faults sink.old) (K.faults sink.new) result }
{
    put_cdc_fault(page, sink, fault)?;
    put_text(page, sink, "\n")
}

/// Puts the line of the message that was read, or of what is wrong with its bytes.
#[tactic(auto, using(byte_port::proofs::Paging::pieces))]
fn put_reading<K: Sink>(page: &mut Page, sink: &mut K, reading: &Reading) -> Result<(), Failed>
    ensures wrote { Wrote result (K.held sink.old) page.old (K.held sink.new) page.new (reading_text reading.now) }
    ensures cause { HasCause (K.faults sink.old) (K.faults sink.new) result }
{
    match reading {
        Reading::Clc(Ok(message)) => put_clc_message_line(page, sink, message),
        Reading::Clc(Err(fault)) => put_clc_refusal_line(page, sink, *fault),
        Reading::Llc(Ok(message)) => put_llc_message_line(page, sink, message),
        Reading::Llc(Err(fault)) => put_llc_refusal_line(page, sink, *fault),
        Reading::Cdc(Ok(message)) => put_cdc_message_line(page, sink, message),
        Reading::Cdc(Err(fault)) => put_cdc_refusal_line(page, sink, *fault),
    }
}

/// Puts the lines of all messages that were read.
#[tactic(auto, using(byte_port::proofs::Paging::pieces))]
fn put_readings<K: Sink>(page: &mut Page, sink: &mut K, readings: &[Reading]) -> Result<(), Failed>
    ensures wrote { Wrote result (K.held sink.old) page.old (K.held sink.new) page.new (flat_map reading_text readings.now) }
    ensures cause { HasCause (K.faults sink.old) (K.faults sink.new) result }
{
    for reading in readings {
        put_reading(page, sink, reading)?;
    }
    Ok(())
}

/// Shows the messages that were read.
fn show_readings<K: Sink>(page: &mut Page, sink: &mut K, readings: &[Reading]) -> Status
    ensures answer { Puts result (record { status = Status.Ok; text = flat_map reading_text readings.now }) (K.held sink.old) page.old (K.held sink.new) page.new }
    ensures cause { IsCaused (K.faults sink.old) (K.faults sink.new) result }
{
    match put_readings(page, sink, readings) {
        Ok(()) => Status::Ok,
        Err(_) => Status::WriteFault,
    }
}

/// Shows each line of an input. Where a line is refused, the text says only which is the first, and
/// for what. All memory is taken before the text is put.
pub fn show<K: Sink>(alloc: Global, input: &[u8], page: &mut Page, sink: &mut K) -> Status
    requires few { length input.now < 2 ^ 32 }
    ensures answer { Puts result (show_answer input.now) (K.held sink.old) page.old (K.held sink.new) page.new }
    ensures cause { IsCaused (K.faults sink.old) (K.faults sink.new) result }
{
    let mut readings = Vec::new(alloc);
    match read_lines(alloc, &mut readings, input) {
        Ok(()) => show_readings(page, sink, &readings),
        Err(SceneFault::NoMemory) => Status::NoMemory,
        Err(fault) => refuse(page, sink, fault),
    }
}

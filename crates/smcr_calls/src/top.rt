//! The top call: from words and an input to the text that is written, and the status.
ghost use Rattle.std.specs.Prelude.{◌≡◌, ◌≢◌, ◌≤◌, ◌<◌, ◌^◌, ◌⊎◌, ℕ, List, [], length, map, Some};
ghost use Rattle.byte_port.specs.Causes.{Rose, HasCause};
ghost use Rattle.byte_port.specs.Pages.{Wrote};
ghost use Rattle.scene_text.specs.Scenes.{plain, IsSound};
ghost use Rattle.smcr_words.specs.Commands.{command_of};
ghost use Rattle.smcr_calls.specs.Runs.{run_of};
ghost use Rattle.smcr_calls.specs.Answers.{kind_text, reason_text, refused_text, refusal_text, refusal_answer, Puts, is_put, Sends, IsCaused};
ghost use Rattle.smcr_calls.specs.Prints.{printed};
ghost use Rattle.smcr_calls.specs.Shares.{IsListed};
ghost use Rattle.smcr_calls.specs.Histories.{HasRun, WroteHistory, WroteTrace};
ghost use Rattle.smcr_calls.specs.Top.{answer_to, history_answer, ran_answer, run_answer, Finishes, Serves, Tells, IsGood};

use crate::print::{Listed, Texts, list_all, put_history};
use crate::run::{run_lines, world_of};
use crate::show::show;
use crate::spell::{put_number, put_text};
use crate::trace::trace;
use byte_port::{Failed, InputFault, Page, Sink, Source, read_input, write_all};
use pipe_model::{Entry, StepFault};
use scene_text::{LineKind, Scene, SceneFault, read_scene};
use smcr_words::{Command, WordsFault, read_command};
use std::alloc::Global;

/// An input has at most so many bytes.
pub const MOST_INPUT_BYTES: u32 = 1_048_576;

/// How the program ended; its exit code is the place in this list, from 0.
#[derive(Clone, Copy, Debug, PartialEq, Eq)]
pub enum Status {
    /// The input was read to its end, every event was answered, and all text was written.
    Ok,
    /// Memory was asked for and there was none.
    NoMemory,
    /// The words are no command.
    Usage,
    /// The input is no scene, or passes a limit.
    Refused,
    /// The source failed.
    ReadFault,
    /// The sink failed.
    WriteFault,
    /// A step was refused, since the room is spent.
    Spent,
    /// The input has too many bytes.
    TooLong,
}

/// The word of a kind of fault.
fn kind_word(kind: LineKind) -> &'static str
    ensures { result.now ≡ kind_text kind }
{
    match kind {
        LineKind::Char => "char",
        LineKind::Word => "word",
        LineKind::Count => "count",
        LineKind::Order => "order",
        LineKind::Again => "again",
        LineKind::Name => "name",
        LineKind::Side => "side",
        LineKind::Number => "number",
        LineKind::Bytes => "bytes",
        LineKind::Subnet => "subnet",
        LineKind::Answer => "answer",
        LineKind::Range => "range",
    }
}

/// Puts what a line is refused for.
#[tactic(auto, using(byte_port::proofs::Paging::pieces))]
fn put_reason<K: Sink>(page: &mut Page, sink: &mut K, what: &str) -> Result<(), Failed>
    ensures wrote { Wrote result (K.held sink.old) page.old (K.held sink.new) page.new (reason_text what.now) }
    ensures cause { HasCause (K.faults sink.old) (K.faults sink.new) result }
{
    put_text(page, sink, ": ")?;
    put_text(page, sink, what)?;
    put_text(page, sink, "\n")
}

/// Puts the line that says which line is refused, and for what.
#[tactic(auto, using(byte_port::proofs::Paging::pieces))]
fn put_refused<K: Sink>(page: &mut Page, sink: &mut K, line: u32, what: &str) -> Result<(), Failed>
    ensures wrote { Wrote result (K.held sink.old) page.old (K.held sink.new) page.new (refused_text line what.now) }
    ensures cause { HasCause (K.faults sink.old) (K.faults sink.new) result }
{
    put_text(page, sink, "line ")?;
    put_number(page, sink, line as u64)?;
    put_reason(page, sink, what)
}

/// Puts what there is to say of a scene that is refused.
#[tactic(auto, using(byte_port::proofs::Paging::pieces))]
pub fn put_refusal<K: Sink>(page: &mut Page, sink: &mut K, fault: &SceneFault) -> Result<(), Failed>
    ensures wrote { Wrote result (K.held sink.old) page.old (K.held sink.new) page.new (refusal_text fault.now) }
    ensures cause { HasCause (K.faults sink.old) (K.faults sink.new) result }
{
    match *fault {
        SceneFault::NoMemory => Ok(()),
        SceneFault::BadLine { line, kind } => put_refused(page, sink, line, kind_word(kind)),
        SceneFault::TooMany { line, .. } => put_refused(page, sink, line, "too many"),
    }
}

/// Puts the text of a history, with all that takes memory listed before.
fn put_ran<K: Sink>(
    page: &mut Page,
    sink: &mut K,
    texts: &Texts<'_>,
    history: &[Entry],
    listed: &Listed,
    stop: Option<StepFault>,
) -> Status
    requires few { length history.now < 2 ^ 32 }
    requires listed { IsListed listed.now history.now }
    ensures answer { Puts result (history_answer (printed texts.now) history.now stop) (K.held sink.old) page.old (K.held sink.new) page.new }
    ensures cause { IsCaused (K.faults sink.old) (K.faults sink.new) result }
{
    match put_history(page, sink, texts, history, listed, stop) {
        Ok(()) => match stop {
            None => Status::Ok,
            Some(_) => Status::Spent,
        },
        Err(_) => Status::WriteFault,
    }
}

/// Runs a scene, and puts the text of its history.
fn run_scene<K: Sink>(alloc: Global, scene: Scene, page: &mut Page, sink: &mut K) -> Status
    requires sound { IsSound (plain scene) }
    ensures answer { Puts result (ran_answer (plain scene) (run_of (plain scene))) (K.held sink.old) page.old (K.held sink.new) page.new }
    ensures cause { IsCaused (K.faults sink.old) (K.faults sink.new) result }
{
    let Scene {
        setup,
        room,
        names,
        actors,
        lines,
        payload,
    } = scene;
    let mut world = match world_of(alloc, &setup, payload, room) {
        Ok(world) => world,
        Err(_) => return Status::NoMemory,
    };
    let stop = run_lines(&mut world, &lines).err();
    let listed = match list_all(alloc, world.history()) {
        Ok(listed) => listed,
        Err(_) => return Status::NoMemory,
    };
    let texts = Texts {
        names: names.keys().as_slice(),
        actors: &actors,
        payload: world.payload(),
        heard: world.heard(),
    };
    put_ran(page, sink, &texts, world.history(), &listed, stop)
}

/// Puts what there is to say of a text that is refused.
pub fn refuse<K: Sink>(page: &mut Page, sink: &mut K, fault: SceneFault) -> Status
    ensures answer { Puts result (refusal_answer fault) (K.held sink.old) page.old (K.held sink.new) page.new }
    ensures cause { IsCaused (K.faults sink.old) (K.faults sink.new) result }
{
    match put_refusal(page, sink, &fault) {
        Ok(()) => Status::Refused,
        Err(_) => Status::WriteFault,
    }
}

/// Reads an input as a scene, runs it, and puts what there is to say.
fn run<K: Sink>(alloc: Global, input: &[u8], page: &mut Page, sink: &mut K) -> Status
    requires few { length input.now ≤ MOST_INPUT_BYTES }
    ensures answer { Puts result (run_answer input.now) (K.held sink.old) page.old (K.held sink.new) page.new }
    ensures cause { IsCaused (K.faults sink.old) (K.faults sink.new) result }
{
    match read_scene(alloc, input) {
        Ok(scene) => run_scene(alloc, scene, page, sink),
        Err(SceneFault::NoMemory) => Status::NoMemory,
        Err(fault) => refuse(page, sink, fault),
    }
}

/// Puts the answer of a command to an input.
fn answer<K: Sink>(
    alloc: Global,
    command: Command,
    input: &[u8],
    page: &mut Page,
    sink: &mut K,
) -> Status
    requires few { length input.now ≤ MOST_INPUT_BYTES }
    ensures answer { Puts result (answer_to command input.now) (K.held sink.old) page.old (K.held sink.new) page.new }
    ensures cause { IsCaused (K.faults sink.old) (K.faults sink.new) result }
{
    match command {
        Command::Run => run(alloc, input, page, sink),
        Command::Show => show(alloc, input, page, sink),
        Command::Trace => trace(alloc, input, page, sink),
    }
}

/// Whether the whole text of an answer was put.
fn is_put(status: Status) -> bool
    ensures { result ≡ is_put status }
{
    match status {
        Status::Ok | Status::Refused | Status::Spent => true,
        Status::NoMemory
        | Status::Usage
        | Status::ReadFault
        | Status::WriteFault
        | Status::TooLong => false,
    }
}

/// Puts the answer of a command on a page, and sends it.
#[tactic(auto, using(crate::proofs::Sent::kept, crate::proofs::Sent::sent, crate::proofs::Sent::unsent, crate::proofs::Sent::caused_later, crate::proofs::Sent::caused_since))]
fn send_answer<K: Sink>(
    alloc: Global,
    command: Command,
    input: &[u8],
    page: &mut Page,
    sink: &mut K,
) -> Status
    requires few { length input.now ≤ MOST_INPUT_BYTES }
    requires empty { page.old ≡ [] }
    ensures answer { Sends result (answer_to command input.now) (K.held sink.old) (K.held sink.new) }
    ensures cause { IsCaused (K.faults sink.old) (K.faults sink.new) result }
{
    let status = answer(alloc, command, input, page, sink);
    if !is_put(status) {
        return status;
    }
    match page.flush(sink) {
        Ok(()) => status,
        Err(_) => Status::WriteFault,
    }
}

/// Writes the text, and then answers with the status.
fn finish<K: Sink>(sink: &mut K, text: &[u8], status: Status) -> Status
    ensures finishes { Finishes result status text.now (K.held sink.old) (K.held sink.new) }
    ensures fault { result ≢ status → Rose (K.faults sink.old) (K.faults sink.new) }
{
    match write_all(sink, text) {
        Ok(()) => status,
        Err(_) => Status::WriteFault,
    }
}

/// Answers a command with the input of the source. The page is made before the input is read.
fn serve<S: Source, K: Sink>(
    alloc: Global,
    command: Command,
    source: &mut S,
    sink: &mut K,
) -> Status
    ensures told { Serves result command (S.left source.old) (K.held sink.old) (K.held sink.new) }
    ensures read { result ≡ Status.ReadFault → Rose (S.faults source.old) (S.faults source.new) }
    ensures write { result ≡ Status.WriteFault → Rose (K.faults sink.old) (K.faults sink.new) }
{
    let Ok(mut page) = Page::new(alloc) else {
        return Status::NoMemory;
    };
    let mut input = Vec::new(alloc);
    match read_input(source, MOST_INPUT_BYTES as usize, &mut input) {
        Ok(()) => send_answer(alloc, command, &input, &mut page, sink),
        Err(InputFault::NoMemory) => Status::NoMemory,
        Err(InputFault::Failed) => Status::ReadFault,
        Err(InputFault::TooLong) => finish(sink, b"too long\n", Status::TooLong),
    }
}

/// Does what the words ask for.
fn obey<S: Source, K: Sink>(alloc: Global, words: &[&str], source: &mut S, sink: &mut K) -> Status
    ensures told { Tells result (map (λ w. w.now) words.now) (S.left source.old) (K.held sink.old) (K.held sink.new) }
    ensures read { result ≡ Status.ReadFault → Rose (S.faults source.old) (S.faults source.new) }
    ensures write { result ≡ Status.WriteFault → Rose (K.faults sink.old) (K.faults sink.new) }
{
    match read_command(alloc, words) {
        Ok(command) => serve(alloc, command, source, sink),
        Err(WordsFault::NoMemory) => Status::NoMemory,
        Err(WordsFault::Usage) => finish(sink, b"usage: smcr run|show|trace\n", Status::Usage),
    }
}

/// Does what the words ask for with the input of the source, writes the text to the sink, and says
/// how it ended. Nothing is written before all memory is there. What a run writes is the text of a
/// lawful history, and a good input of a command is answered to its end unless memory, the source or
/// the sink fails.
pub fn smcr<S: Source, K: Sink>(
    alloc: Global,
    words: &[&str],
    source: &mut S,
    sink: &mut K,
) -> Status
    ensures told { Tells result (map (λ w. w.now) words.now) (S.left source.old) (K.held sink.old) (K.held sink.new) }
    ensures lawful { command_of (map (λ w. w.now) words.now) ≡ Some Command.Run → HasRun result
        → WroteHistory (S.left source.old) (K.held sink.old) (K.held sink.new) }
    ensures traced { command_of (map (λ w. w.now) words.now) ≡ Some Command.Trace → HasRun result
        → WroteTrace (S.left source.old) (K.held sink.old) (K.held sink.new) }
    ensures read { result ≡ Status.ReadFault → Rose (S.faults source.old) (S.faults source.new) }
    ensures write { result ≡ Status.WriteFault → Rose (K.faults sink.old) (K.faults sink.new) }
    ensures complete { (command : Command) (input : List ℕ) → command_of (map (λ w. w.now) words.now) ≡ Some command
        → S.left source.old ≡ Some input → IsGood command input
        → (Rose (S.faults source.old) (S.faults source.new) → ⊥) → (Rose (K.faults sink.old) (K.faults sink.new) → ⊥)
        → (result ≡ Status.Ok) ⊎ (result ≡ Status.NoMemory) }
{
    obey(alloc, words, source, sink)
}

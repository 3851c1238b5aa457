//! The trace of a scene: all messages of its history in one file, each in its own spelling.
ghost use Rattle.std.specs.Prelude.{◌≡◌, ◌≤◌, ◌<◌, ◌^◌, length};
ghost use Rattle.scene_text.specs.Scenes.{plain, IsSound};
ghost use Rattle.wire_trace.specs.Traced.{AreWritable};
ghost use Rattle.smcr_calls.specs.Answers.{Puts, IsCaused};
ghost use Rattle.smcr_calls.specs.Runs.{run_of};
ghost use Rattle.smcr_calls.specs.Top.{trace_of, traced_answer, trace_answer};

use crate::run::{run_lines, world_of};
use crate::top::{MOST_INPUT_BYTES, Status, refuse};
use byte_port::{Page, Sink};
use pipe_model::{Entry, StepFault};
use scene_text::{Scene, SceneFault, read_scene};
use std::alloc::Global;
use wire_trace::write_trace;

/// Puts the trace of a history.
fn put_trace<K: Sink>(
    page: &mut Page,
    sink: &mut K,
    history: &[Entry],
    stop: Option<StepFault>,
) -> Status
    requires few { length history.now < 2 ^ 29 }
    requires writable { AreWritable history.now }
    ensures answer { Puts result (trace_of history.now stop) (K.held sink.old) page.old (K.held sink.new) page.new }
    ensures cause { IsCaused (K.faults sink.old) (K.faults sink.new) result }
{
    match write_trace(page, sink, history) {
        Ok(()) => match stop {
            None => Status::Ok,
            Some(_) => Status::Spent,
        },
        Err(_) => Status::WriteFault,
    }
}

/// Runs a scene, and puts the trace of its history.
fn trace_scene<K: Sink>(alloc: Global, scene: Scene, page: &mut Page, sink: &mut K) -> Status
    requires sound { IsSound (plain scene) }
    ensures answer { Puts result (traced_answer (run_of (plain scene))) (K.held sink.old) page.old (K.held sink.new) page.new }
    ensures cause { IsCaused (K.faults sink.old) (K.faults sink.new) result }
{
    let Scene {
        setup,
        room,
        lines,
        payload,
        ..
    } = scene;
    let mut world = match world_of(alloc, &setup, payload, room) {
        Ok(world) => world,
        Err(_) => return Status::NoMemory,
    };
    let stop = run_lines(&mut world, &lines).err();
    put_trace(page, sink, world.history(), stop)
}

/// Reads an input as a scene, runs it, and puts the trace of its history, or which line is refused.
/// Where a step was refused since the room is spent, it is the trace of the history so far.
pub fn trace<K: Sink>(alloc: Global, input: &[u8], page: &mut Page, sink: &mut K) -> Status
    requires few { length input.now ≤ MOST_INPUT_BYTES }
    ensures answer { Puts result (trace_answer input.now) (K.held sink.old) page.old (K.held sink.new) page.new }
    ensures cause { IsCaused (K.faults sink.old) (K.faults sink.new) result }
{
    match read_scene(alloc, input) {
        Ok(scene) => trace_scene(alloc, scene, page, sink),
        Err(SceneFault::NoMemory) => Status::NoMemory,
        Err(fault) => refuse(page, sink, fault),
    }
}

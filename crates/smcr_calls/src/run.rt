//! Makes the world of a scene, and runs its lines there.
ghost use Rattle.std.specs.Prelude.{◌≡◌, ◌≤◌, ◌<◌, ◌^◌, length, IfOk, OnOk};
ghost use Rattle.std.specs.List.{All};
ghost use Rattle.scene_text.specs.Scenes.{IsInRange, WhatFits, LineFits};
ghost use Rattle.smcr_calls.specs.Runs.{pumps, run_what, runs, stop_of, SameScene};
ghost use Rattle.world_core.specs.Steps.{fresh_world};

use pipe_model::{Room, Setup, StepFault};
use scene_text::{SceneLine, SceneWhat};
use smc_num::NoMemory;
use std::alloc::Global;
use world_core::{NewFault, World};

/// The world of a scene, in which nothing has happened.
pub fn world_of(
    alloc: Global,
    setup: &Setup,
    payload: Vec<u8>,
    room: Room,
) -> Result<World, NoMemory>
    requires settings { IsInRange setup.now room }
    requires payload { length payload.items < 2 ^ 32 }
    ensures { IfOk result (λ world. world ≡ fresh_world setup.now payload.items room) }
{
    match World::new(alloc, setup, payload, room) {
        Ok(world) => Ok(world),
        Err(NewFault::NoMemory) => Err(NoMemory),
        Err(NewFault::BadSetup { .. }) => unreachable!(),
    }
}

/// At most so many pumps, fewer only where nothing is due.
fn pump_up_to(world: &mut World, count: u32) -> Result<(), StepFault>
    ensures ran { record { world = world.new; stop = stop_of result } ≡ pumps count world.old }
    ensures scene { SameScene world.old world.new }
{
    for _ in 0..count {
        match world.pump(0) {
            Ok(Some(_)) => {}
            Ok(None) => return Ok(()),
            Err(fault) => return Err(fault),
        }
    }
    Ok(())
}

/// One line.
fn run_line(world: &mut World, what: SceneWhat) -> Result<(), StepFault>
    requires { WhatFits world.old.setup (length world.old.payload) what }
    ensures ran { record { world = world.new; stop = stop_of result } ≡ run_what what world.old }
    ensures scene { SameScene world.old world.new }
{
    match what {
        SceneWhat::One(event) => {
            world.step(0, event)?;
            Ok(())
        }
        SceneWhat::Pump(count) => pump_up_to(world, count),
    }
}

/// All lines, up to the first step that is refused.
pub fn run_lines(world: &mut World, lines: &[SceneLine]) -> Result<(), StepFault>
    requires { All (LineFits world.old.setup (length world.old.payload)) lines.now }
    ensures ran { record { world = world.new; stop = stop_of result } ≡ runs lines.now world.old }
    ensures scene { SameScene world.old world.new }
{
    for line in lines {
        run_line(world, line.what)?;
    }
    Ok(())
}

//! Scenes, and what a line adds to them.

ghost use Rattle.std.specs.Prelude.{◌≡◌, ◌≤◌, ◌+◌, ◌++◌, length, map, IfOk, IfErr, OnOk, Some, None, nat_le, if◌then◌else◌};
ghost use Rattle.scene_text.specs.Words.{bytes_in};
ghost use Rattle.scene_text.specs.Scenes.{built_setup, plain, names_in, empty_scene, socket_of, mentioned, with_name, with_sockets, limit_passed, unless_passed, IsWithinLimits};

use crate::faults::LineFault;
use crate::limits::{MOST_EVENT_LINES, MOST_NAMES, MOST_PAYLOAD_BYTES};
use crate::words::Run;
use indexmap::IndexMap;
use pipe_model::{Event, Room, Setup};
use std::alloc::{AllocError, Global};

/// What is done at a line of a scene.
#[derive(Clone, Copy, Debug, PartialEq, Eq)]
pub enum SceneWhat {
    /// This event happens.
    One(Event),
    /// At most so many steps are made of what is due.
    Pump(u32),
}

/// A line of a scene at which something is done.
#[derive(Clone, Copy, Debug, PartialEq, Eq)]
pub struct SceneLine {
    pub what: SceneWhat,
}

/// A scene: who meets whom, and what is done in which order.
#[derive(Debug, Drop)]
pub struct Scene {
    /// The settings of both peers; there are as many sockets as names, but at least one.
    pub setup: Setup,
    /// How much the history may hold.
    pub room: Room,
    /// The names of the sockets, by their numbers.
    pub names: IndexMap<String, ()>,
    /// The names of the actors from 1 on. Actor 0 is the scene's own.
    pub actors: Vec<String>,
    /// What is done, in this order.
    pub lines: Vec<SceneLine>,
    /// The bytes of all writes, in their order.
    pub payload: Vec<u8>,
}

/// The number of a name, which goes last where it is new.
fn mention(alloc: Global, names: &mut IndexMap<String, ()>, name: &str) -> Result<usize, AllocError>
    ensures number { IfOk result (λ s. s ≡ socket_of (names_in names.old) name.now) }
    ensures names { OnOk result (names_in names.new ≡ mentioned (names_in names.old) name.now) }
{
    if let Some(s) = names.get_index_of(name) {
        return Ok(s);
    }
    let s = names.len();
    let key = String::from_str(alloc, name)?;
    names.insert(key, ())?;
    Ok(s)
}

/// How many bytes runs are, if they are at most `most`.
pub(crate) fn count_of(runs: &[Run], most: u32) -> Option<u32>
    ensures { result ≡ (if nat_le (length (bytes_in runs.now)) most then Some (length (bytes_in runs.now)) else None) }
{
    let mut count = 0u32;
    for run in runs {
        if run.count > most - count {
            return None;
        }
        count += run.count;
    }
    Some(count)
}

/// Appends the bytes of runs.
pub(crate) fn push_runs(bytes: &mut Vec<u8>, runs: &[Run]) -> Result<(), AllocError>
    ensures { OnOk result (bytes.new.items ≡ bytes.old.items ++ bytes_in runs.now) }
{
    for run in runs {
        bytes.resize(bytes.len() + run.count as usize, run.byte)?;
    }
    Ok(())
}

/// The setup of a scene that sets nothing: the default one, but with the one slot and the one RMB a
/// side that are built. It goes as more is built.
pub fn built_setup() -> Setup
    ensures { result ≡ built_setup }
{
    Setup {
        links: 1,
        rmbs: [1, 1],
        ..Setup::default()
    }
}

impl Scene {
    /// A scene without lines.
    pub(crate) fn empty(alloc: Global) -> Scene
        ensures { plain result ≡ empty_scene }
    {
        Scene {
            setup: built_setup(),
            room: Room::default(),
            names: IndexMap::new(alloc),
            actors: Vec::new(alloc),
            lines: Vec::new(alloc),
            payload: Vec::new(alloc),
        }
    }

    /// The number of a name, which is mentioned now.
    #[tactic(auto, using(crate::proofs::Mentions::socket_within))]
    pub(crate) fn socket(&mut self, alloc: Global, name: &str) -> Result<u32, AllocError>
        requires { IsWithinLimits (plain self.old) }
        ensures number { IfOk result (λ s. s ≡ socket_of (plain self.old).names name.now) }
        ensures named { OnOk result (plain self.new ≡ with_name name.now (plain self.old)) }
    {
        let s = mention(alloc, &mut self.names, name)?;
        Ok(s as u32)
    }

    /// Refuses too many names, and another line where there may be none.
    pub(crate) fn test_line(&self) -> Result<(), LineFault>
        requires { length (plain self.now).payload ≤ MOST_PAYLOAD_BYTES }
        ensures { result ≡ unless_passed (limit_passed (length (plain self.now).names) (length (plain self.now).lines + 1) (length (plain self.now).payload)) tt }
    {
        if self.names.len() > MOST_NAMES as usize {
            return Err(LineFault::Passes { limit: MOST_NAMES });
        }
        if self.lines.len() >= MOST_EVENT_LINES as usize {
            return Err(LineFault::Passes {
                limit: MOST_EVENT_LINES,
            });
        }
        Ok(())
    }

    /// Sets the number of sockets: as many as there are names, but at least one.
    pub(crate) fn count_sockets(&mut self)
        requires { IsWithinLimits (plain self.old) }
        ensures { plain self.new ≡ with_sockets (plain self.old) }
    {
        self.setup.sockets = (self.names.len() as u32).max(1);
    }
}

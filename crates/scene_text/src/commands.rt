//! The words that lines begin with: their shapes, and what each makes of the values behind it.

ghost use Rattle.std.specs.Prelude.{◌≡◌, length, map, option_map, OnOk, IfOk};
ghost use Rattle.scene_text.specs.Words.{bytes_in};
ghost use Rattle.scene_text.specs.Shapes.{plain_values};
ghost use Rattle.scene_text.specs.Commands.{command_of, shape_of, what_of, names_after, number_named, says, row_of};
ghost use Rattle.scene_text.specs.Scenes.{plain, within_limits, Makes, IsWithinLimits};
ghost use Rattle.scene_text.specs.Grammar.{limited};

use crate::faults::{LineFault, LineKind};
use crate::limits::MOST_PAYLOAD_BYTES;
use crate::scenes::{Scene, SceneLine, SceneWhat, count_of, push_runs};
use crate::shapes::{Shape, Values};
use pipe_model::{End, Event};
use std::alloc::{AllocError, Global};

/// What the first word of a line stands for, unless it is `set`.
#[derive(Clone, Copy, Debug, PartialEq, Eq)]
pub(crate) enum Command {
    Open,
    Pump,
    Write,
    Read,
    Clc,
    Deliver,
    Complete,
}

pub(crate) fn command_of(word: &[u8]) -> Result<Command, LineKind>
    ensures { result ≡ command_of word.now }
{
    if word == b"open".as_slice() {
        Ok(Command::Open)
    } else if word == b"pump".as_slice() {
        Ok(Command::Pump)
    } else if word == b"write".as_slice() {
        Ok(Command::Write)
    } else if word == b"read".as_slice() {
        Ok(Command::Read)
    } else if word == b"clc".as_slice() {
        Ok(Command::Clc)
    } else if word == b"deliver".as_slice() {
        Ok(Command::Deliver)
    } else if word == b"complete".as_slice() {
        Ok(Command::Complete)
    } else {
        Err(LineKind::Word)
    }
}

impl Command {
    /// The shape of its line.
    fn shape(self) -> Shape
        ensures { result ≡ shape_of self }
    {
        match self {
            Command::Open => Shape::Name,
            Command::Pump => Shape::Count,
            Command::Write => Shape::EndBytes,
            Command::Read => Shape::EndNumber,
            Command::Clc => Shape::NameSide,
            Command::Deliver => Shape::SlotSide,
            Command::Complete => Shape::SlotSide,
        }
    }

    /// What it makes of its values, of which the socket has this number, and the bytes are `len` from
    /// `at` on.
    fn makes(self, values: &Values<'_>, s: u32, at: u32, len: u32) -> SceneWhat
        requires { len ≡ length (plain_values values.now).bytes }
        ensures { result ≡ what_of self (plain_values values.now) s at }
    {
        let Values {
            side,
            number,
            slot,
            ..
        } = *values;
        let end = End { side, s };
        match self {
            Command::Open => SceneWhat::One(Event::Open(s)),
            Command::Pump => SceneWhat::Pump(number),
            Command::Write => SceneWhat::One(Event::Write { end, at, len }),
            Command::Read => SceneWhat::One(Event::Read { end, len: number }),
            Command::Clc => SceneWhat::One(Event::Clc { s, dir: side }),
            Command::Deliver => SceneWhat::One(Event::Deliver { slot, dir: side }),
            Command::Complete => SceneWhat::One(Event::Complete { slot, dir: side }),
        }
    }
}

impl Scene {
    /// The number of the socket that a line names, which is mentioned now.
    fn named(&mut self, alloc: Global, name: Option<&str>) -> Result<u32, AllocError>
        requires { IsWithinLimits (plain self.old) }
        ensures number { IfOk result (λ s. s ≡ number_named (option_map (λ n. n.now) name.entry) (plain self.old).names) }
        ensures named { OnOk result (plain self.new ≡ record (plain self.old) { names = names_after (option_map (λ n. n.now) name.entry) (plain self.old).names }) }
    {
        match name {
            Some(name) => self.socket(alloc, name),
            None => Ok(0),
        }
    }

    /// Adds the line of a word with these values.
    fn say(&mut self, alloc: Global, command: Command, values: &Values<'_>) -> Result<(), LineFault>
        requires { IsWithinLimits (plain self.old) }
        ensures { Makes result (plain self.new) (within_limits (says command (plain_values values.now) (plain self.old))) }
    {
        let s = self.named(alloc, values.name)?;
        self.test_line()?;
        let at = self.payload.len() as u32;
        let Some(len) = count_of(&values.runs, MOST_PAYLOAD_BYTES - at) else {
            return Err(LineFault::Passes {
                limit: MOST_PAYLOAD_BYTES,
            });
        };
        push_runs(&mut self.payload, &values.runs)?;
        let what = command.makes(values, s, at, len);
        self.lines.push(SceneLine { what })?;
        Ok(())
    }

    /// Does what a line says: its word, and the words behind it.
    pub(crate) fn take(
        &mut self,
        alloc: Global,
        command: Command,
        words: &[&[u8]],
    ) -> Result<(), LineFault>
        requires { IsWithinLimits (plain self.old) }
        ensures { Makes result (plain self.new) (limited (row_of command (map (λ w. w.now) words.now) (plain self.old))) }
    {
        match command.shape().read(alloc, words, self.setup.links) {
            Ok(values) => self.say(alloc, command, &values),
            Err(fault) => Err(fault),
        }
    }
}

//! The settings of a scene.
//!
//! A setting stands before all lines at which something is done, and each is set at most once, for
//! each side where it is one of a side. What is not set keeps its default.

ghost use Rattle.std.specs.Prelude.{◌≡◌, ◌+◌, ◌<◌, map, false};
ghost use Rattle.smc_num.specs.Names.{at_side};
ghost use Rattle.scene_text.specs.Scenes.{plain, Makes};
ghost use Rattle.scene_text.specs.Settings.{pair_with, setting_named, side_place, shared_place, side_value, shared_value, or_bad, plain_draft, empty_draft, before_lines, named_once, side_row, shared_row, set_row, set_said};

use crate::faults::{LineFault, LineKind};
use crate::limits::{
    MOST_BYTES, MOST_DEPTH, MOST_ELEMENTS, MOST_ENTRIES, MOST_NUMBER, MOST_RMBS, MOST_SIZE_CODE,
};
use crate::scenes::Scene;
use crate::words::{answer_of, number_in, short_in, side_in, small_in, subnet_of};
use smc_num::Side;
use std::alloc::Global;

/// A setting that each side has of its own.
#[derive(Clone, Copy, Debug, PartialEq, Eq)]
pub(crate) enum SideSetting {
    Capable,
    Subnet,
    Rmbs,
    Elements,
}

/// A setting that both sides have in common.
#[derive(Clone, Copy, Debug, PartialEq, Eq)]
pub(crate) enum SharedSetting {
    Size,
    Depth,
    Number,
    Entries,
    Bytes,
}

/// What the word behind `set` stands for.
#[derive(Clone, Copy, Debug, PartialEq, Eq)]
enum SettingName {
    OfSide(SideSetting),
    OfBoth(SharedSetting),
}

/// The setting of this name.
fn setting_named(word: &[u8]) -> Result<SettingName, LineKind>
    ensures { result ≡ setting_named word.now }
{
    if word == b"capable".as_slice() {
        Ok(SettingName::OfSide(SideSetting::Capable))
    } else if word == b"subnet".as_slice() {
        Ok(SettingName::OfSide(SideSetting::Subnet))
    } else if word == b"size".as_slice() {
        Ok(SettingName::OfBoth(SharedSetting::Size))
    } else if word == b"rmbs".as_slice() {
        Ok(SettingName::OfSide(SideSetting::Rmbs))
    } else if word == b"elements".as_slice() {
        Ok(SettingName::OfSide(SideSetting::Elements))
    } else if word == b"depth".as_slice() {
        Ok(SettingName::OfBoth(SharedSetting::Depth))
    } else if word == b"number".as_slice() {
        Ok(SettingName::OfBoth(SharedSetting::Number))
    } else if word == b"entries".as_slice() {
        Ok(SettingName::OfBoth(SharedSetting::Entries))
    } else if word == b"bytes".as_slice() {
        Ok(SettingName::OfBoth(SharedSetting::Bytes))
    } else {
        Err(LineKind::Word)
    }
}

/// The first of two numbers at A, the second at B.
fn place_at(side: Side, first: u8) -> u8
    requires { first < 255 }
    ensures { result ≡ at_side side first (first + 1) }
{
    match side {
        Side::A => first,
        Side::B => first + 1,
    }
}

impl SideSetting {
    /// The place of this setting of a side among all that can be set.
    fn place(self, side: Side) -> u8
        ensures { result ≡ side_place self side }
    {
        match self {
            SideSetting::Capable => place_at(side, 0),
            SideSetting::Subnet => place_at(side, 2),
            SideSetting::Rmbs => place_at(side, 4),
            SideSetting::Elements => place_at(side, 6),
        }
    }
}

impl SharedSetting {
    /// The place of this setting among all that can be set.
    fn place(self) -> u8
        ensures { result ≡ shared_place self }
    {
        match self {
            SharedSetting::Size => 8,
            SharedSetting::Depth => 9,
            SharedSetting::Number => 10,
            SharedSetting::Entries => 11,
            SharedSetting::Bytes => 12,
        }
    }
}

/// A pair with another value at a side.
fn with_number(pair: [u8; 2], side: Side, value: u8) -> [u8; 2]
    ensures { result ≡ pair_with 0 side value pair }
{
    match side {
        Side::A => [value, pair[1]],
        Side::B => [pair[0], value],
    }
}

/// The same of yes and no.
fn with_answer(pair: [bool; 2], side: Side, value: bool) -> [bool; 2]
    ensures { result ≡ pair_with false side value pair }
{
    match side {
        Side::A => [value, pair[1]],
        Side::B => [pair[0], value],
    }
}

/// The same of subnets.
fn with_subnet(pair: [(u32, u8); 2], side: Side, value: (u32, u8)) -> [(u32, u8); 2]
    ensures { result ≡ pair_with (0, 0) side value pair }
{
    match side {
        Side::A => [value, pair[1]],
        Side::B => [pair[0], value],
    }
}

impl Scene {
    fn set_capable(&mut self, side: Side, word: &[u8]) -> Result<(), LineFault>
        ensures { Makes result (plain self.new) (or_bad (side_value SideSetting.Capable side word.now (plain self.old))) }
    {
        let yes = answer_of(word)?;
        self.setup.capable = with_answer(self.setup.capable, side, yes);
        Ok(())
    }

    fn set_subnet(&mut self, alloc: Global, side: Side, word: &[u8]) -> Result<(), LineFault>
        ensures { Makes result (plain self.new) (or_bad (side_value SideSetting.Subnet side word.now (plain self.old))) }
    {
        let subnet = subnet_of(alloc, word)?;
        self.setup.subnet = with_subnet(self.setup.subnet, side, subnet);
        Ok(())
    }

    fn set_rmbs(&mut self, side: Side, word: &[u8]) -> Result<(), LineFault>
        ensures { Makes result (plain self.new) (or_bad (side_value SideSetting.Rmbs side word.now (plain self.old))) }
    {
        let count = small_in(word, 1, MOST_RMBS)?;
        self.setup.rmbs = with_number(self.setup.rmbs, side, count);
        Ok(())
    }

    fn set_elements(&mut self, side: Side, word: &[u8]) -> Result<(), LineFault>
        ensures { Makes result (plain self.new) (or_bad (side_value SideSetting.Elements side word.now (plain self.old))) }
    {
        let count = small_in(word, 1, MOST_ELEMENTS)?;
        self.setup.elements = with_number(self.setup.elements, side, count);
        Ok(())
    }

    /// Sets a setting of a side to what a word says.
    fn set_side(
        &mut self,
        alloc: Global,
        setting: SideSetting,
        side: Side,
        word: &[u8],
    ) -> Result<(), LineFault>
        ensures { Makes result (plain self.new) (or_bad (side_value setting side word.now (plain self.old))) }
    {
        match setting {
            SideSetting::Capable => self.set_capable(side, word),
            SideSetting::Subnet => self.set_subnet(alloc, side, word),
            SideSetting::Rmbs => self.set_rmbs(side, word),
            SideSetting::Elements => self.set_elements(side, word),
        }
    }

    fn set_size(&mut self, word: &[u8]) -> Result<(), LineFault>
        ensures { Makes result (plain self.new) (or_bad (shared_value SharedSetting.Size word.now (plain self.old))) }
    {
        self.setup.size_code = small_in(word, 0, MOST_SIZE_CODE)?;
        Ok(())
    }

    fn set_depth(&mut self, word: &[u8]) -> Result<(), LineFault>
        ensures { Makes result (plain self.new) (or_bad (shared_value SharedSetting.Depth word.now (plain self.old))) }
    {
        self.setup.depth = small_in(word, 1, MOST_DEPTH)?;
        Ok(())
    }

    fn set_number(&mut self, word: &[u8]) -> Result<(), LineFault>
        ensures { Makes result (plain self.new) (or_bad (shared_value SharedSetting.Number word.now (plain self.old))) }
    {
        self.setup.number = short_in(word, 1, MOST_NUMBER)?;
        Ok(())
    }

    fn set_entries(&mut self, word: &[u8]) -> Result<(), LineFault>
        ensures { Makes result (plain self.new) (or_bad (shared_value SharedSetting.Entries word.now (plain self.old))) }
    {
        self.room.entries = number_in(word, 1, MOST_ENTRIES)?;
        Ok(())
    }

    fn set_bytes(&mut self, word: &[u8]) -> Result<(), LineFault>
        ensures { Makes result (plain self.new) (or_bad (shared_value SharedSetting.Bytes word.now (plain self.old))) }
    {
        self.room.bytes = number_in(word, 1, MOST_BYTES)?;
        Ok(())
    }

    /// Sets a setting that both sides have in common to what a word says.
    fn set_shared(&mut self, setting: SharedSetting, word: &[u8]) -> Result<(), LineFault>
        ensures { Makes result (plain self.new) (or_bad (shared_value setting word.now (plain self.old))) }
    {
        match setting {
            SharedSetting::Size => self.set_size(word),
            SharedSetting::Depth => self.set_depth(word),
            SharedSetting::Number => self.set_number(word),
            SharedSetting::Entries => self.set_entries(word),
            SharedSetting::Bytes => self.set_bytes(word),
        }
    }
}

/// A scene of which more is read.
#[derive(Debug, Drop)]
pub(crate) struct Draft {
    /// What the lines so far say.
    pub scene: Scene,
    /// The places of the settings that were named.
    named: Vec<u8>,
}

impl Draft {
    /// A draft of which nothing has been read.
    pub(crate) fn empty(alloc: Global) -> Draft
        ensures { plain_draft result ≡ empty_draft }
    {
        Draft {
            scene: Scene::empty(alloc),
            named: Vec::new(alloc),
        }
    }

    /// Refuses a setting behind a line at which something is done.
    fn test_order(&self) -> Result<(), LineFault>
        ensures { result ≡ before_lines (plain_draft self.now) }
    {
        if self.scene.lines.is_empty() {
            Ok(())
        } else {
            Err(LineFault::Bad(LineKind::Order))
        }
    }

    /// Notes that the setting of this place is named, which it was not before.
    fn note(&mut self, place: u8) -> Result<(), LineFault>
        ensures { Makes result (plain_draft self.new) (named_once place (plain_draft self.old)) }
    {
        if self.named.contains(&place) {
            return Err(LineFault::Bad(LineKind::Again));
        }
        self.named.push(place)?;
        Ok(())
    }

    /// The line `set SETTING SIDE VALUE`.
    fn take_side(
        &mut self,
        alloc: Global,
        setting: SideSetting,
        side: &[u8],
        value: &[u8],
    ) -> Result<(), LineFault>
        ensures { Makes result (plain_draft self.new) (side_row setting side.now value.now (plain_draft self.old)) }
    {
        self.test_order()?;
        let side = side_in(side)?;
        self.note(setting.place(side))?;
        self.scene.set_side(alloc, setting, side, value)
    }

    /// The line `set SETTING VALUE`.
    fn take_shared(&mut self, setting: SharedSetting, value: &[u8]) -> Result<(), LineFault>
        ensures { Makes result (plain_draft self.new) (shared_row setting value.now (plain_draft self.old)) }
    {
        self.test_order()?;
        self.note(setting.place())?;
        self.scene.set_shared(setting, value)
    }

    /// The line of a setting, whose words behind its name are these.
    fn take_setting(
        &mut self,
        alloc: Global,
        setting: SettingName,
        words: &[&[u8]],
    ) -> Result<(), LineFault>
        ensures { Makes result (plain_draft self.new) (set_row setting (map (λ w. w.now) words.now) (plain_draft self.old)) }
    {
        match (setting, words) {
            (SettingName::OfSide(setting), [side, value]) => {
                self.take_side(alloc, setting, side, value)
            }
            (SettingName::OfBoth(setting), [value]) => self.take_shared(setting, value),
            _ => Err(LineFault::Bad(LineKind::Count)),
        }
    }

    /// The line `set`, whose words behind it are these.
    pub(crate) fn take_set(&mut self, alloc: Global, words: &[&[u8]]) -> Result<(), LineFault>
        ensures { Makes result (plain_draft self.new) (set_said (map (λ w. w.now) words.now) (plain_draft self.old)) }
    {
        match words {
            [] => Err(LineFault::Bad(LineKind::Count)),
            [word, others @ ..] => {
                let setting = setting_named(word)?;
                self.take_setting(alloc, setting, others)
            }
        }
    }
}

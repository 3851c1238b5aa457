//! Scenes, printed in their one spelling.
//!
//! All settings stand first, in one order and with their values, then what is done. What is printed
//! of a scene is read as the same scene.

ghost use Rattle.std.specs.Prelude.{◌≡◌, ◌++◌, false, OnOk, OnErr, codes, ℕ, List, Ok};
ghost use Rattle.std.specs.Fmt.{decimal};
ghost use Rattle.scene_text.specs.Scenes.{PlainScene, plain};
ghost use Rattle.scene_text.specs.Grammar.{scene_of};
ghost use Rattle.scene_text.specs.Printing.{names_of, answer_text, address_text, subnet_text, side_word, shared_word, part_of, side_value_text, shared_value_text, side_line, shared_line, setting_line, what_line, ended_line, settings_text, lines_text, scene_text_of};

use crate::scenes::{Scene, SceneLine, SceneWhat};
use crate::settings::{SharedSetting, SideSetting};
use crate::spell::{push_event, push_number, push_side, push_text};
use pipe_model::{Room, Setup, Side};
use smc_num::NoMemory;
use std::alloc::{AllocError, Global};

/// A line that sets something.
#[derive(Clone, Copy, Debug, PartialEq, Eq)]
enum SettingLine {
    OfSide(SideSetting, Side),
    OfBoth(SharedSetting),
}

/// The lines of all settings, in their order. There is none of the slots, whose word is not built.
const SETTING_LINES: [SettingLine; 13] = [
    SettingLine::OfSide(SideSetting::Capable, Side::A),
    SettingLine::OfSide(SideSetting::Capable, Side::B),
    SettingLine::OfSide(SideSetting::Subnet, Side::A),
    SettingLine::OfSide(SideSetting::Subnet, Side::B),
    SettingLine::OfBoth(SharedSetting::Size),
    SettingLine::OfSide(SideSetting::Rmbs, Side::A),
    SettingLine::OfSide(SideSetting::Rmbs, Side::B),
    SettingLine::OfSide(SideSetting::Elements, Side::A),
    SettingLine::OfSide(SideSetting::Elements, Side::B),
    SettingLine::OfBoth(SharedSetting::Depth),
    SettingLine::OfBoth(SharedSetting::Number),
    SettingLine::OfBoth(SharedSetting::Entries),
    SettingLine::OfBoth(SharedSetting::Bytes),
];

/// Appends a number and a point.
fn push_part(out: &mut Vec<u8>, number: u32) -> Result<(), AllocError>
    ensures { OnOk result (out.new.items ≡ out.old.items ++ (decimal number ++ codes ".")) }
{
    push_number(out, number as u64)?;
    push_text(out, ".")
}

/// Appends an address.
fn push_address(out: &mut Vec<u8>, address: u32) -> Result<(), AllocError>
    ensures { OnOk result (out.new.items ≡ out.old.items ++ address_text address) }
{
    push_part(out, address / 256 / 256 / 256)?;
    push_part(out, address / 256 / 256 % 256)?;
    push_part(out, address / 256 % 256)?;
    push_number(out, (address % 256) as u64)
}

/// Appends a subnet.
fn push_subnet(out: &mut Vec<u8>, subnet: (u32, u8)) -> Result<(), AllocError>
    ensures { OnOk result (out.new.items ≡ out.old.items ++ subnet_text subnet) }
{
    push_address(out, subnet.0)?;
    push_text(out, "/")?;
    push_number(out, subnet.1 as u64)
}

/// Appends yes or no.
fn push_answer(out: &mut Vec<u8>, answer: bool) -> Result<(), AllocError>
    ensures { OnOk result (out.new.items ≡ out.old.items ++ answer_text answer) }
{
    if answer {
        push_text(out, "yes")
    } else {
        push_text(out, "no")
    }
}

/// The part of a pair that is a side's.
fn part_of(pair: [u8; 2], side: Side) -> u8
    ensures { result ≡ part_of 0 pair side }
{
    match side {
        Side::A => pair[0],
        Side::B => pair[1],
    }
}

fn answer_of(pair: [bool; 2], side: Side) -> bool
    ensures { result ≡ part_of false pair side }
{
    match side {
        Side::A => pair[0],
        Side::B => pair[1],
    }
}

fn subnet_of(pair: [(u32, u8); 2], side: Side) -> (u32, u8)
    ensures { result ≡ part_of (0, 0) pair side }
{
    match side {
        Side::A => pair[0],
        Side::B => pair[1],
    }
}

impl SideSetting {
    /// The name of this setting.
    fn word(self) -> &'static str
        ensures { result.now ≡ side_word self }
    {
        match self {
            SideSetting::Capable => "capable",
            SideSetting::Subnet => "subnet",
            SideSetting::Rmbs => "rmbs",
            SideSetting::Elements => "elements",
        }
    }

    /// Appends what it is set to.
    fn push_value(self, out: &mut Vec<u8>, side: Side, setup: &Setup) -> Result<(), AllocError>
        ensures { OnOk result (out.new.items ≡ out.old.items ++ side_value_text self side setup.now) }
    {
        match self {
            SideSetting::Capable => push_answer(out, answer_of(setup.capable, side)),
            SideSetting::Subnet => push_subnet(out, subnet_of(setup.subnet, side)),
            SideSetting::Rmbs => push_number(out, part_of(setup.rmbs, side) as u64),
            SideSetting::Elements => push_number(out, part_of(setup.elements, side) as u64),
        }
    }
}

impl SharedSetting {
    /// The name of this setting.
    fn word(self) -> &'static str
        ensures { result.now ≡ shared_word self }
    {
        match self {
            SharedSetting::Size => "size",
            SharedSetting::Depth => "depth",
            SharedSetting::Number => "number",
            SharedSetting::Entries => "entries",
            SharedSetting::Bytes => "bytes",
        }
    }

    /// What it is set to.
    fn value(self, setup: &Setup, room: &Room) -> u32
        ensures { decimal result ≡ shared_value_text self setup.now room.now }
    {
        match self {
            SharedSetting::Size => setup.size_code as u32,
            SharedSetting::Depth => setup.depth as u32,
            SharedSetting::Number => setup.number as u32,
            SharedSetting::Entries => room.entries,
            SharedSetting::Bytes => room.bytes,
        }
    }
}

/// Appends `set`, the name of a setting and a space.
fn push_set(out: &mut Vec<u8>, word: &str) -> Result<(), AllocError>
    ensures { OnOk result (out.new.items ≡ out.old.items ++ (codes "set " ++ (word.now ++ codes " "))) }
{
    push_text(out, "set ")?;
    push_text(out, word)?;
    push_text(out, " ")
}

/// Appends the line of a setting of a side.
fn push_side_line(
    out: &mut Vec<u8>,
    setting: SideSetting,
    side: Side,
    setup: &Setup,
) -> Result<(), AllocError>
    ensures { OnOk result (out.new.items ≡ out.old.items ++ side_line setting side setup.now) }
{
    push_set(out, setting.word())?;
    push_side(out, side)?;
    push_text(out, " ")?;
    setting.push_value(out, side, setup)
}

/// Appends the line of a setting that both sides have in common.
fn push_shared_line(
    out: &mut Vec<u8>,
    setting: SharedSetting,
    setup: &Setup,
    room: &Room,
) -> Result<(), AllocError>
    ensures { OnOk result (out.new.items ≡ out.old.items ++ shared_line setting setup.now room.now) }
{
    push_set(out, setting.word())?;
    push_number(out, setting.value(setup, room) as u64)
}

/// Appends the line of a setting.
fn push_setting(
    out: &mut Vec<u8>,
    line: SettingLine,
    setup: &Setup,
    room: &Room,
) -> Result<(), AllocError>
    ensures { OnOk result (out.new.items ≡ out.old.items ++ setting_line setup.now room.now line) }
{
    match line {
        SettingLine::OfSide(setting, side) => push_side_line(out, setting, side, setup),
        SettingLine::OfBoth(setting) => push_shared_line(out, setting, setup, room),
    }
}

/// Appends settings, line by line.
fn push_settings(
    out: &mut Vec<u8>,
    lines: &[SettingLine],
    setup: &Setup,
    room: &Room,
) -> Result<(), AllocError>
    ensures { OnOk result (out.new.items ≡ out.old.items ++ settings_text setup.now room.now lines.now) }
{
    for line in lines {
        push_setting(out, *line, setup, room)?;
        push_text(out, "\n")?;
    }
    Ok(())
}

/// Appends what is done at a line.
fn push_what(
    out: &mut Vec<u8>,
    names: &[String],
    payload: &[u8],
    what: SceneWhat,
) -> Result<(), AllocError>
    ensures { OnOk result (out.new.items ≡ out.old.items ++ what_line (names_of names.now) payload.now what) }
{
    match what {
        SceneWhat::One(event) => push_event(out, names, payload, event),
        SceneWhat::Pump(count) => {
            push_text(out, "pump ")?;
            push_number(out, count as u64)
        }
    }
}

/// Appends what is done, line by line.
fn push_lines(
    out: &mut Vec<u8>,
    names: &[String],
    payload: &[u8],
    lines: &[SceneLine],
) -> Result<(), AllocError>
    ensures { OnOk result (out.new.items ≡ out.old.items ++ lines_text (names_of names.now) payload.now lines.now) }
{
    for line in lines {
        push_what(out, names, payload, line.what)?;
        push_text(out, "\n")?;
    }
    Ok(())
}

/// Appends a scene.
fn push_scene(out: &mut Vec<u8>, scene: &Scene) -> Result<(), AllocError>
    ensures { OnOk result (out.new.items ≡ out.old.items ++ scene_text_of (plain scene.now)) }
{
    push_settings(out, &SETTING_LINES, &scene.setup, &scene.room)?;
    push_lines(
        out,
        scene.names.keys().as_slice(),
        &scene.payload,
        &scene.lines,
    )
}

/// Appends a text to which no part is missing, or nothing.
fn append(out: &mut Vec<u8>, text: &[u8]) -> Result<(), NoMemory>
    ensures ok { OnOk result (out.new.items ≡ out.old.items ++ text.now) }
    ensures err { OnErr result (out.new.items ≡ out.old.items) }
{
    match out.extend_from_slice(text) {
        Ok(()) => Ok(()),
        Err(_) => Err(NoMemory),
    }
}

/// Prints a scene: appends its text, or leaves `out` as it was.
pub fn print_scene(alloc: Global, scene: &Scene, out: &mut Vec<u8>) -> Result<(), NoMemory>
    ensures ok { OnOk result (out.new.items ≡ out.old.items ++ scene_text_of (plain scene.now)) }
    ensures err { OnErr result (out.new.items ≡ out.old.items) }
{
    let mut text = Vec::new(alloc);
    match push_scene(&mut text, scene) {
        Ok(()) => append(out, &text),
        Err(_) => Err(NoMemory),
    }
}

/// Whatever scene a text gives, its printed text gives the same.
pub fn scenes_are_read_back()
    ensures { (text : List ℕ) (scene : PlainScene) → scene_of text ≡ Ok scene → scene_of (scene_text_of scene) ≡ Ok scene }
{}

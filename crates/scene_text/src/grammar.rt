//! The grammar of scenes: what the lines of a text say.

ghost use Rattle.std.specs.Prelude.{◌≡◌, ◌==◌, ◌<◌, ◌^◌, length, map, OnOk, IfOk, IfErr, Ok};
ghost use Rattle.std.specs.List.{list_all};
ghost use Rattle.std.specs.Str.Lines.{strip_carriage_return, lines};
ghost use Rattle.scene_text.specs.Scenes.{plain, Makes, IsWithinLimits, IsSound};
ghost use Rattle.scene_text.specs.Settings.{plain_draft, empty_draft};
ghost use Rattle.scene_text.specs.Grammar.{is_printable, is_passed_over, line_done, words_said, after_line, fault_at, at_line, after_lines, scene_of, IsFault, IsDrafted, IsRead};

use crate::commands::command_of;
use crate::faults::{LineFault, LineKind, SceneFault};
use crate::scenes::Scene;
use crate::settings::Draft;
use crate::words::{cut, words_of};
use std::alloc::Global;

fn are_spaces(line: &[u8]) -> bool
    ensures { result ≡ list_all (λ b. b == 32) line.now }
{
    line.iter().all(|byte| *byte == b' ')
}

/// Whether a line says nothing.
pub fn is_passed_over(line: &[u8]) -> bool
    ensures { result ≡ is_passed_over line.now }
{
    match line {
        [] | [b'#', ..] => true,
        _ => are_spaces(line),
    }
}

/// Whether a line has only bytes that a line may have.
pub fn are_printable(line: &[u8]) -> bool
    ensures { result ≡ list_all is_printable line.now }
{
    line.iter().all(|byte| b' ' <= *byte && *byte <= b'~')
}

/// Reads a line whose first word is not `set`.
fn read_done(
    alloc: Global,
    scene: &mut Scene,
    word: &[u8],
    arguments: &[&[u8]],
) -> Result<(), LineFault>
    requires { IsWithinLimits (plain scene.old) }
    ensures { Makes result (plain scene.new) (line_done word.now (map (λ w. w.now) arguments.now) (plain scene.old)) }
{
    let command = command_of(word)?;
    scene.take(alloc, command, arguments)
}

/// Reads the words of a line.
fn read_words(alloc: Global, draft: &mut Draft, words: &[&[u8]]) -> Result<(), LineFault>
    requires { IsWithinLimits (plain_draft draft.old).scene }
    ensures { Makes result (plain_draft draft.new) (words_said (map (λ w. w.now) words.now) (plain_draft draft.old)) }
{
    match words {
        // Such a line has been passed over.
        [] => Err(LineFault::Bad(LineKind::Word)),
        [word, arguments @ ..] => {
            if *word == b"set".as_slice() {
                draft.take_set(alloc, arguments)
            } else {
                read_done(alloc, &mut draft.scene, word, arguments)
            }
        }
    }
}

/// Reads one line.
fn read_line(alloc: Global, draft: &mut Draft, line: &[u8]) -> Result<(), LineFault>
    requires { IsWithinLimits (plain_draft draft.old).scene }
    ensures { Makes result (plain_draft draft.new) (after_line line.now (plain_draft draft.old)) }
{
    if is_passed_over(line) {
        return Ok(());
    }
    if !are_printable(line) {
        return Err(LineFault::Bad(LineKind::Char));
    }
    let words = words_of(alloc, line)?;
    read_words(alloc, draft, &words)
}

/// What a fault is in the line with this number.
pub fn fault_at(line: u32, fault: LineFault) -> SceneFault
    ensures { result ≡ fault_at line fault }
{
    match fault {
        LineFault::NoMemory => SceneFault::NoMemory,
        LineFault::Bad(kind) => SceneFault::BadLine { line, kind },
        LineFault::Passes { limit } => SceneFault::TooMany { line, limit },
    }
}

/// A line that ends at a line feed, without the carriage return before that.
pub fn without_return(line: &[u8]) -> &[u8]
    ensures { result.now ≡ strip_carriage_return line.now }
{
    match line {
        [text @ .., b'\r'] => text,
        _ => line,
    }
}

/// Reads the line with this number.
fn read_line_at(
    alloc: Global,
    draft: &mut Draft,
    number: u32,
    line: &[u8],
) -> Result<(), SceneFault>
    requires { IsWithinLimits (plain_draft draft.old).scene }
    ensures ok { OnOk result (at_line number (after_line line.now (plain_draft draft.old)) ≡ Ok (plain_draft draft.new)) }
    ensures err { IfErr result (λ fault. IsFault fault (at_line number (after_line line.now (plain_draft draft.old)))) }
{
    read_line(alloc, draft, line).map_err(|fault| fault_at(number, fault))
}

/// Reads the lines of a text.
fn read_lines(alloc: Global, bytes: &[u8]) -> Result<Draft, SceneFault>
    requires { length bytes.now < 2 ^ 32 }
    ensures { IsDrafted result (after_lines 1 (lines bytes.now) empty_draft) }
{
    let mut draft = Draft::empty(alloc);
    let mut number = 0u32;
    let mut rest = bytes;
    while let Some((line, after)) = cut(rest, b'\n') {
        number += 1;
        read_line_at(alloc, &mut draft, number, without_return(line))?;
        rest = after;
    }
    if !rest.is_empty() {
        read_line_at(alloc, &mut draft, number + 1, rest)?;
    }
    Ok(draft)
}

/// The scene that a text of fewer than 2^32 bytes is.
///
/// `BadLine` and `TooMany` tell the first line that is refused, counted from 1: for the first of its
/// kinds, or, where it has none, for the first limit that the scene passes with it.
pub fn read_scene(alloc: Global, bytes: &[u8]) -> Result<Scene, SceneFault>
    requires { length bytes.now < 2 ^ 32 }
    // It is the scene that the grammar gives, or the fault of the first line that is refused.
    ensures exact { IsRead result (scene_of bytes.now) }

    ensures sound { IfOk result (λ scene. IsSound (plain scene)) }
{
    let draft = read_lines(alloc, bytes)?;
    let mut scene = draft.scene;
    scene.count_sockets();
    Ok(scene)
}

//! What stands behind the first word of a line: each shape is read by one function.

ghost use Rattle.std.specs.Prelude.{◌≡◌, ◌≤◌, ◌∷◌, [], map, IfOk};
ghost use Rattle.scene_text.specs.Words.{Gives};
ghost use Rattle.scene_text.specs.Shapes.{plain_values, read_values};

use crate::faults::{LineFault, LineKind};
use crate::limits::{MOST_PUMP_STEPS, MOST_READ_BYTES};
use crate::words::{Run, end_of, name_of, number_in, runs_of, side_in, small_in};
use smc_num::Side;
use std::alloc::Global;

/// Which words stand behind the first one.
#[derive(Clone, Copy, Debug, PartialEq, Eq)]
pub(crate) enum Shape {
    /// `NAME`
    Name,
    /// `N`
    Count,
    /// `END BYTES`
    EndBytes,
    /// `END N`
    EndNumber,
    /// `NAME SIDE`
    NameSide,
    /// `N SIDE`, where N is a slot
    SlotSide,
}

/// The values of a line; what its shape lacks is `None`, 0, side A and no runs.
#[derive(Debug, Drop)]
pub(crate) struct Values<'a> {
    /// The socket that the line names.
    pub name: Option<&'a str>,
    pub side: Side,
    pub number: u32,
    pub slot: u8,
    /// The bytes that it adds to the payload.
    pub runs: Vec<Run>,
}

fn read_name<'a>(alloc: Global, name: &'a [u8]) -> Result<Values<'a>, LineFault>
    ensures { Gives plain_values result (read_values Shape.Name 0 (name.now ∷ [])) }
{
    let name = name_of(name)?;
    Ok(Values {
        name: Some(name),
        side: Side::A,
        number: 0,
        slot: 0,
        runs: Vec::new(alloc),
    })
}

fn read_count<'a>(alloc: Global, count: &'a [u8]) -> Result<Values<'a>, LineFault>
    ensures { Gives plain_values result (read_values Shape.Count 0 (count.now ∷ [])) }
{
    let number = number_in(count, 1, MOST_PUMP_STEPS)?;
    Ok(Values {
        name: None,
        side: Side::A,
        number,
        slot: 0,
        runs: Vec::new(alloc),
    })
}

fn read_end_bytes<'a>(
    alloc: Global,
    end: &'a [u8],
    bytes: &'a [u8],
) -> Result<Values<'a>, LineFault>
    ensures { Gives plain_values result (read_values Shape.EndBytes 0 (end.now ∷ bytes.now ∷ [])) }
{
    let end = end_of(end)?;
    let runs = runs_of(alloc, bytes)?;
    Ok(Values {
        name: Some(end.name),
        side: end.side,
        number: 0,
        slot: 0,
        runs,
    })
}

fn read_end_number<'a>(
    alloc: Global,
    end: &'a [u8],
    number: &'a [u8],
) -> Result<Values<'a>, LineFault>
    ensures { Gives plain_values result (read_values Shape.EndNumber 0 (end.now ∷ number.now ∷ [])) }
{
    let end = end_of(end)?;
    let number = number_in(number, 0, MOST_READ_BYTES)?;
    Ok(Values {
        name: Some(end.name),
        side: end.side,
        number,
        slot: 0,
        runs: Vec::new(alloc),
    })
}

fn read_name_side<'a>(
    alloc: Global,
    name: &'a [u8],
    side: &'a [u8],
) -> Result<Values<'a>, LineFault>
    ensures { Gives plain_values result (read_values Shape.NameSide 0 (name.now ∷ side.now ∷ [])) }
{
    let name = name_of(name)?;
    let side = side_in(side)?;
    Ok(Values {
        name: Some(name),
        side,
        number: 0,
        slot: 0,
        runs: Vec::new(alloc),
    })
}

fn read_slot_side<'a>(
    alloc: Global,
    slot: &'a [u8],
    side: &'a [u8],
    links: u8,
) -> Result<Values<'a>, LineFault>
    ensures { Gives plain_values result (read_values Shape.SlotSide links (slot.now ∷ side.now ∷ [])) }
{
    let slot = small_in(slot, 1, links)?;
    let side = side_in(side)?;
    Ok(Values {
        name: None,
        side,
        number: 0,
        slot,
        runs: Vec::new(alloc),
    })
}

impl Shape {
    /// Reads the words behind the first one, where so many slots are set.
    pub(crate) fn read<'a>(
        self,
        alloc: Global,
        words: &[&'a [u8]],
        links: u8,
    ) -> Result<Values<'a>, LineFault>
        ensures { Gives plain_values result (read_values self links (map (λ w. w.now) words.now)) }
    {
        match (self, words) {
            (Shape::Name, [name]) => read_name(alloc, name),
            (Shape::Count, [count]) => read_count(alloc, count),
            (Shape::EndBytes, [end, bytes]) => read_end_bytes(alloc, end, bytes),
            (Shape::EndNumber, [end, number]) => read_end_number(alloc, end, number),
            (Shape::NameSide, [name, side]) => read_name_side(alloc, name, side),
            (Shape::SlotSide, [slot, side]) => read_slot_side(alloc, slot, side, links),
            _ => Err(LineFault::Bad(LineKind::Count)),
        }
    }
}

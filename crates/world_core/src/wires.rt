//! The wires of a host, by slot: a slot that has none carries nothing.
ghost use Rattle.std.specs.Prelude.{◌≡◌, ◌≤◌, ◌<◌, ◌-◌, [], length, map, replicate, slice_set, vec_capacity, false, is_some, IfOk, OnOk};
ghost use Rattle.rc_link.specs.Wire.{completing, empty, landing, next_cdc, room_of, with_completed, with_landed, with_post};
ghost use Rattle.world_core.specs.Sending.{wire_in};

use crate::lists::with_room;
use pipe_model::CdcMessage;
use rc_link::{InFlight, Wire};
use smc_num::NoMemory;
use std::alloc::Global;

/// A wire for each slot, with so many places.
pub fn new_wires(alloc: Global, slots: u8, places: u32) -> Result<Vec<Wire>, NoMemory>
    ensures { IfOk result (λ wires. wires.items ≡ replicate slots (empty places false)) }
{
    let mut wires = with_room(alloc, slots as u32)?;
    add_wires(&mut wires, alloc, slots, places)?;
    Ok(wires)
}

/// Adds as many, for which there is room.
fn add_wires(wires: &mut Vec<Wire>, alloc: Global, slots: u8, places: u32) -> Result<(), NoMemory>
    requires none { wires.old.items ≡ [] }
    requires room { slots ≤ vec_capacity wires.old }
    ensures { OnOk result (wires.new.items ≡ replicate slots (empty places false)) }
{
    for _slot in 0..slots {
        wires.push_reserved(Wire::new(alloc, places)?);
    }
    Ok(())
}

/// Where the wire of a slot stands.
fn place(slot: u8) -> usize
    ensures { result ≡ slot - 1 }
{
    (slot as usize).saturating_sub(1)
}

/// A post goes on the wire of a slot, which has room for it.
pub fn post(wires: &mut Vec<Wire>, slot: u8, item: InFlight)
    requires { 0 < room_of (wire_in slot wires.old.items) }
    ensures { wires.new.items ≡ slice_set wires.old.items (slot - 1) (with_post item (wire_in slot wires.old.items)) }
{
    let Some(wire) = wires.get_mut(place(slot)) else {
        unreachable!()
    };
    wire.post(item);
}

/// The next post on a slot lands, if there is one.
pub fn land(wires: &mut Vec<Wire>, slot: u8) -> Option<InFlight>
    ensures post { result ≡ landing (wire_in slot wires.old.items) }
    ensures wire { wire_in slot wires.new.items ≡ with_landed (landing (wire_in slot wires.old.items)) (wire_in slot wires.old.items) }
{
    let Some(wire) = wires.get_mut(place(slot)) else {
        return None;
    };
    wire.land()
}

/// The oldest landed post on a slot completes, if there is one.
pub fn complete(wires: &mut Vec<Wire>, slot: u8) -> Option<InFlight>
    ensures post { result ≡ completing (wire_in slot wires.old.items) }
    ensures wire { wire_in slot wires.new.items ≡ with_completed (completing (wire_in slot wires.old.items)) (wire_in slot wires.old.items) }
{
    let Some(wire) = wires.get_mut(place(slot)) else {
        return None;
    };
    wire.complete()
}

/// Whether a post on a slot would land now.
pub fn can_land(wires: &Vec<Wire>, slot: u8) -> bool
    ensures { result ≡ is_some (landing (wire_in slot wires.now.items)) }
{
    match wires.get(place(slot)) {
        Some(wire) => wire.can_land(),
        None => false,
    }
}

/// Whether a post on a slot would complete now.
pub fn can_complete(wires: &Vec<Wire>, slot: u8) -> bool
    ensures { result ≡ is_some (completing (wire_in slot wires.now.items)) }
{
    match wires.get(place(slot)) {
        Some(wire) => wire.can_complete(),
        None => false,
    }
}

/// The next CDC message among the posts on a slot that have not landed.
pub fn next_cdc(wires: &Vec<Wire>, slot: u8) -> Option<CdcMessage>
    ensures { result ≡ next_cdc (map (λ c. c.post) (wire_in slot wires.now.items).waiting) }
{
    match wires.get(place(slot)) {
        Some(wire) => wire.next_cdc(),
        None => None,
    }
}

//! The records of connections by socket, in a slab with room reserved.
ghost use Rattle.std.specs.Prelude.{◌≡◌, ◌+◌, ◌-◌, ◌<◌, ◌≤◌, Some, None, replicate, length, slice_set, option_map, option_copied, IfOk, IsSome, OnSome};
ghost use Rattle.std.specs.Borrow.{sem};
ghost use Rattle.side_core.specs.Slots.{conn_of, slot_at, with_slot};
ghost use Rattle.side_core.specs.Lends.{LendsRecord};

use crate::record::Record;
use slab::Slab;
use smc_num::NoMemory;
use std::alloc::Global;
use std::marker::Model;

// A record with its socket.
#[derive(Drop)]
struct Held {
    s: u32,
    record: Record,
}

/// Records by socket.
#[derive(Drop)]
pub struct Shelf {
    keys: Vec<Option<usize>>,
    held: Slab<Held>,
}

impl Model for Shelf {
    ghost use Rattle.side_core.specs.Slots.{Slots, slots_of, IsShelf};

    ghost Value = { Slots };

    ghost view = { λ s. slots_of s.held s.keys.items };

    ghost invariant = { λ s. IsShelf s.held s.keys.items };
}

impl Shelf {
    /// A shelf for so many sockets, with room for `most` records.
    pub fn new(alloc: Global, sockets: u32, most: u16) -> Result<Shelf, NoMemory>
        ensures slots { IfOk result (λ v. v.slots ≡ replicate sockets None) }
        ensures room { IfOk result (λ v. most ≤ v.room) }
        ensures capacity { IfOk result (λ v. v.room ≡ v.capacity) }
    {
        let keys = no_keys(alloc, sockets)?;
        let Ok(held) = Slab::with_capacity(alloc, most as usize) else {
            return Err(NoMemory);
        };
        Ok(Shelf { keys, held })
    }

    /// How many records there may be.
    pub fn capacity(&self) -> usize
        ensures { result ≡ self.now.capacity }
    {
        self.held.capacity()
    }

    /// The record of a socket.
    pub fn get(&self, s: u32) -> Option<&Record>
        ensures { option_map conn_of (option_copied result) ≡ slot_at s self.now }
    {
        let key = (*self.keys.get(s as usize)?)?;
        let held = self.held.get(key)?;
        Some(&held.record)
    }

    /// The record of a socket that has one, for writing.
    pub fn get_mut(&mut self, s: u32) -> &mut Record
        requires { IsSome (slot_at s self.old) }
        ensures* lends { sem 𝓛 (LendsRecord self.entry s result) }
        ensures value { slot_at s self.old ≡ Some (conn_of result.now) }
    {
        let Some(key) = self.keys[s as usize] else {
            unreachable!()
        };
        let Some(held) = self.held.get_mut(key) else {
            unreachable!()
        };
        &mut held.record
    }

    /// Keeps a record for a socket that has none.
    pub fn put(&mut self, s: u32, filed: Record)
        requires range { s < length self.old.slots }
        requires vacant { slot_at s self.old ≡ None }
        requires room { 0 < self.old.room }
        ensures slots { self.new.slots ≡ slice_set self.old.slots s (Some (conn_of filed)) }
        ensures room { self.new.room + 1 ≡ self.old.room }
        ensures capacity { self.new.capacity ≡ self.old.capacity }
    {
        let key = self.held.insert_reserved(Held { s, record: filed });
        self.keys[s as usize] = Some(key);
    }

    /// Takes out the record of a socket that has one.
    pub fn take(&mut self, s: u32) -> Record
        requires { IsSome (slot_at s self.old) }
        ensures taken { slot_at s self.old ≡ Some (conn_of result) }
        ensures slots { self.new.slots ≡ slice_set self.old.slots s None }
        ensures room { self.new.room ≡ self.old.room + 1 }
        ensures capacity { self.new.capacity ≡ self.old.capacity }
        ensures most { self.new.room ≤ self.new.capacity }
    {
        let Some(key) = self.keys[s as usize] else {
            unreachable!()
        };
        self.keys[s as usize] = None;
        self.held.remove(key).record
    }
}

// No keys, for so many sockets.
fn no_keys(alloc: Global, sockets: u32) -> Result<Vec<Option<usize>>, NoMemory>
    ensures { IfOk result (λ keys. keys.items ≡ replicate sockets None) }
{
    vec![in alloc; None; sockets as usize].map_err(|_| NoMemory)
}

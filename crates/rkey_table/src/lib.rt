//! The keys by which a peer may write into a side's RMBs.
//!
//! A key is a number that is bound to one RMB for one link (RFC 7609, section 2.1). The table is the
//! list of these, in the order in which they were bound. No number is ever bound to two RMBs; an RMB
//! keeps its number for a slot when a new link is made there, and else gets the lowest unused one.
//! All memory is taken by `new`, and a refusal changes nothing.
#![tactic(auto)]

ghost use Rattle.std.specs.Prelude.{◌≡◌, ℕ, ◌+◌, ◌≤◌, ◌<◌, ◌^◌, ◌↔◌, false, [], length, IfOk, OnOk, OnErr, IsErr, IsNone};
ghost use Rattle.smc_num.specs.Keys.{is_used, key_for_slot, number_for, registers, rmb_bound, without_key, without_rmb};
ghost use Rattle.rkey_table.specs.Tables.{Table, AllUsed, IsTable};

mod keys;
pub mod laws;

use crate::keys::{
    Entry, bind, is_used, lowest_unused, number_for, number_of, remove_key, remove_rmb, rmb_of,
};
use smc_num::{LinkId, NoMemory};
use std::alloc::Global;
use std::marker::Model;

/// Every number of the table is in use, and the RMB has none for the slot.
#[derive(Clone, Copy, Debug, PartialEq, Eq)]
pub struct KeysFull;

/// No key has the number.
#[derive(Clone, Copy, Debug, PartialEq, Eq)]
pub struct NoKey;

/// The keys of a side. Their numbers are the first so many above a base.
#[derive(Debug, Drop)]
pub struct KeyTable {
    base: u32,
    places: u8,
    keys: Vec<Entry>,
}

impl Model for KeyTable {
    ghost use Rattle.std.specs.Prelude.{◌≤◌, ◌<◌, ◌+◌, ◌^◌, vec_capacity};
    ghost use Rattle.rkey_table.specs.Tables.{Table, IsTable};

    ghost Value = { Table };

    ghost view = { λ t. record { base = t.base; places = t.places; keys = t.keys.items } };

    ghost invariant = { λ t. IsTable (record { base = t.base; places = t.places; keys = t.keys.items })
        × (t.places ≤ vec_capacity t.keys) × (t.base + t.places < 2 ^ 32) };
}

impl KeyTable {
    /// A table without keys, whose numbers are `base + 1` to `base + slots`.
    pub fn new(alloc: Global, base: u32, slots: u8) -> Result<KeyTable, NoMemory>
        requires { base + slots < 2 ^ 32 }
        ensures { IfOk result (λ table. table ≡ record { base = base; places = slots; keys = [] }) }
    {
        let Ok(keys) = Vec::with_capacity(alloc, slots as usize) else {
            return Err(NoMemory);
        };
        Ok(KeyTable {
            base,
            places: slots,
            keys,
        })
    }

    /// Binds a key to an RMB for a link, in place of that RMB's key for an earlier link of the slot.
    /// The RMB keeps its number for the slot; else it gets the lowest one that is unused. A refusal
    /// changes nothing.
    pub fn register(&mut self, rmb: u8, link: LinkId) -> Result<u32, KeysFull>
        ensures number { IfOk result (λ key. key ≡ number_for self.old.base rmb link.slot self.old.keys) }
        ensures bound { OnOk result (self.new ≡ record self.old { keys = registers self.old.base rmb self.old.keys link }) }
        ensures full { IsErr result ↔ (IsNone (key_for_slot rmb link.slot self.old.keys) × AllUsed self.old) }
        ensures kept { IsTable self.old }
        ensures refused { OnErr result (self.new ≡ self.old) }
    {
        let Some(key) = number_for(&self.keys, self.base, self.places, rmb, link) else {
            return Err(KeysFull);
        };
        bind(&mut self.keys, Entry { key, rmb, link });
        Ok(key)
    }

    /// Takes a key back. A refusal changes nothing.
    pub fn withdraw(&mut self, key: u32) -> Result<(), NoKey>
        ensures gone { OnOk result (self.new ≡ record self.old { keys = without_key key self.old.keys }) }
        ensures unknown { IsErr result ↔ (is_used key self.old.keys ≡ false) }
        ensures refused { OnErr result (self.new ≡ self.old) }
    {
        if !is_used(&self.keys, key) {
            return Err(NoKey);
        }
        remove_key(&mut self.keys, key);
        Ok(())
    }

    /// Takes the keys of an RMB back, on all links.
    pub fn withdraw_rmb(&mut self, rmb: u8)
        ensures { self.new ≡ record self.old { keys = without_rmb rmb self.old.keys } }
    {
        remove_rmb(&mut self.keys, rmb);
    }

    /// Takes all keys back.
    pub fn clear(&mut self)
        ensures { self.new ≡ record self.old { keys = [] } }
    {
        self.keys.clear();
    }

    /// The RMB to which the key is bound on this link.
    pub fn lookup(&self, key: u32, link: LinkId) -> Option<u8>
        ensures rmb { result ≡ rmb_bound key link self.now.keys }
        ensures kept { IsTable self.now }
    {
        rmb_of(&self.keys, key, link)
    }

    /// The number of an RMB for a slot, where it has one.
    pub fn number(&self, rmb: u8, slot: u8) -> Option<u32>
        ensures { result ≡ key_for_slot rmb slot self.now.keys }
    {
        number_of(&self.keys, rmb, slot)
    }

    /// The number that an RMB has, or would get, for a slot. Where every number is in use it is one
    /// that the table hasn't.
    pub fn number_for(&self, rmb: u8, slot: u8) -> u32
        requires { self.now.base + self.now.places + 1 < 2 ^ 32 }
        ensures { result ≡ number_for self.now.base rmb slot self.now.keys }
    {
        self.number(rmb, slot)
            .unwrap_or(lowest_unused(&self.keys, self.base))
    }
}

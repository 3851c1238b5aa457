//! A list of keys: what it has, and how it changes.
ghost use Rattle.std.specs.Prelude.{◌≡◌, ◌+◌, ◌-◌, ◌≤◌, not, find, filter, ◌<◌, ◌^◌, ◌↔◌, IfSome, OnSome, IsNone, length, vec_len, vec_capacity};
ghost use Rattle.std.specs.List.{range_with_len};
ghost use Rattle.smc_num.specs.Keys.{is_used, lowest_unused, key_for_slot, number_for, registers, binds, rmb_bound, is_for, without_key, without_rmb};
ghost use Rattle.rkey_table.specs.Tables.{AllUsed, IsTable};

use smc_num::LinkId;
use std::marker::Model;

/// A key that is bound to an RMB for a link.
#[derive(Clone, Copy, Debug)]
pub struct Entry {
    pub key: u32,
    pub rmb: u8,
    pub link: LinkId,
}

impl Model for Entry {
    ghost use Rattle.smc_num.specs.Keys.{Key};

    ghost Value = { Key };

    ghost view = { λ e. record { key = e.key; rmb = e.rmb; link = e.link } };

    ghost inverse = { λ k. record { key = k.key; rmb = k.rmb; link = k.link } };
}

/// Whether some key has the number.
pub(crate) fn is_used(keys: &[Entry], n: u32) -> bool
    ensures { result ≡ is_used n keys.now }
{
    keys.iter().any(|k| n == k.key)
}

/// The number of an RMB for a slot, where it has one.
pub(crate) fn number_of(keys: &[Entry], rmb: u8, slot: u8) -> Option<u32>
    ensures { result ≡ key_for_slot rmb slot keys.now }
{
    keys.iter()
        .find(|k| k.rmb == rmb && k.link.slot == slot)
        .map(|k| k.key)
}

/// The RMB of a number on a link, where there is one.
pub(crate) fn rmb_of(keys: &[Entry], key: u32, link: LinkId) -> Option<u8>
    ensures { result ≡ rmb_bound key link keys.now }
{
    keys.iter()
        .find(|k| k.key == key && k.link == link)
        .map(|k| k.rmb)
}

/// The lowest of so many numbers that no key has.
fn first_unused(keys: &[Entry], from: u32, count: u32) -> Option<u32>
    requires { from + count ≤ 2 ^ 32 }
    ensures { result ≡ find (λ n. not (is_used n keys.now)) (range_with_len from count) }
{
    for i in 0..count {
        let n = from + i;
        if !is_used(keys, n) {
            return Some(n);
        }
    }
    None
}

/// The lowest number above the base that no key has.
pub(crate) fn lowest_unused(keys: &[Entry], base: u32) -> u32
    requires { base + length keys.now + 1 < 2 ^ 32 }
    ensures { result ≡ lowest_unused base keys.now }
{
    first_unused(keys, base + 1, keys.len() as u32 + 1).unwrap_or(base)
}

/// The number of an RMB for a slot: the one that it has, or else the lowest that no key has, where
/// there are fewer keys than places.
pub(crate) fn number_for(
    keys: &[Entry],
    base: u32,
    places: u8,
    rmb: u8,
    link: LinkId,
) -> Option<u32>
    requires base { base + places < 2 ^ 32 }
    requires table { IsTable (record { base = base; places = places; keys = keys.now }) }
    ensures number { IfSome result (λ key. key ≡ number_for base rmb link.slot keys.now) }
    ensures kept { OnSome result (IsTable (record { base = base; places = places; keys = registers base rmb keys.now link })) }
    ensures room { OnSome result (length (registers base rmb keys.now link) ≤ places) }
    ensures full { IsNone result ↔ (IsNone (key_for_slot rmb link.slot keys.now) × AllUsed (record { base = base; places = places; keys = keys.now })) }
{
    match number_of(keys, rmb, link.slot) {
        Some(key) => Some(key),
        None if keys.len() == places as usize => None,
        None => Some(lowest_unused(keys, base)),
    }
}

/// Removes the key of an RMB for a slot.
fn remove_for(keys: &mut Vec<Entry>, rmb: u8, slot: u8)
    ensures items { keys.new.items ≡ filter (λ k. not (is_for rmb slot k)) keys.old.items }
    ensures len { vec_len keys.new ≤ vec_len keys.old }
    ensures capacity { vec_capacity keys.new ≡ vec_capacity keys.old }
{
    keys.retain(|k| !(k.rmb == rmb && k.link.slot == slot));
}

/// A new key takes the place of its RMB's earlier one for the same slot.
pub(crate) fn bind(keys: &mut Vec<Entry>, new: Entry)
    requires { length (binds new keys.old.items) ≤ vec_capacity keys.old }
    ensures items { keys.new.items ≡ binds new keys.old.items }
    ensures capacity { vec_capacity keys.old ≤ vec_capacity keys.new }
{
    remove_for(keys, new.rmb, new.link.slot);
    let _ = keys.push(new);
}

/// Removes the keys of a number, and tells whether there were any.
pub(crate) fn remove_key(keys: &mut Vec<Entry>, key: u32)
    ensures items { keys.new.items ≡ without_key key keys.old.items }
    ensures len { vec_len keys.new ≤ vec_len keys.old }
    ensures capacity { vec_capacity keys.new ≡ vec_capacity keys.old }
{
    keys.retain(|k| k.key != key);
}

/// Removes the keys of an RMB.
pub(crate) fn remove_rmb(keys: &mut Vec<Entry>, rmb: u8)
    ensures items { keys.new.items ≡ without_rmb rmb keys.old.items }
    ensures len { vec_len keys.new ≤ vec_len keys.old }
    ensures capacity { vec_capacity keys.new ≡ vec_capacity keys.old }
{
    keys.retain(|k| k.rmb != rmb);
}

//! A list of what was learnt: what it has, and how it changes.
ghost use Rattle.std.specs.Prelude.{◌≡◌, ◌≤◌, not, filter, find, option_map, length, vec_len, vec_capacity};
ghost use Rattle.smc_num.specs.Keys.{is_for, is_bound, is_named, rmb_bound};
ghost use Rattle.key_book.specs.Books.{keys_in, learns, forgets, forgets_named, known_for};

use smc_num::LinkId;
use std::marker::Model;

/// A key of the peer for a link, and the address of its RMB there.
#[derive(Clone, Copy, Debug)]
pub struct Entry {
    pub key: u32,
    pub rmb: u8,
    pub link: LinkId,
    pub address: u64,
}

impl Model for Entry {
    ghost use Rattle.key_book.specs.Books.{Learnt};

    ghost Value = { Learnt };

    ghost view = { λ e. record { key = record { key = e.key; rmb = e.rmb; link = e.link }; address = e.address } };

    ghost inverse = { λ l. record { key = l.key.key; rmb = l.key.rmb; link = l.key.link; address = l.address } };
}

/// The key and the address of an RMB for a link.
pub(crate) fn known_for(known: &[Entry], rmb: u8, link: LinkId) -> Option<(u32, u64)>
    ensures { result ≡ option_map (λ l. (l.key.key, l.address)) (known_for rmb link known.now) }
{
    known
        .iter()
        .find(|e| e.rmb == rmb && e.link == link)
        .map(|e| (e.key, e.address))
}

/// The RMB of a key on a link, as it stands in the list.
fn rmb_in(known: &[Entry], key: u32, link: LinkId) -> Option<u8>
    ensures { result ≡ option_map (λ l. l.key.rmb) (find (λ l. is_named key link l.key) known.now) }
{
    known
        .iter()
        .find(|e| e.key == key && e.link == link)
        .map(|e| e.rmb)
}

/// The RMB of a key on a link.
#[tactic(auto, using(crate::proofs::KeysOf::rmb_found))]
pub(crate) fn rmb_of(known: &[Entry], key: u32, link: LinkId) -> Option<u8>
    ensures { result ≡ rmb_bound key link (keys_in known.now) }
{
    rmb_in(known, key, link)
}

/// Removes what is known of an RMB for a slot.
fn remove_for(known: &mut Vec<Entry>, rmb: u8, slot: u8)
    ensures items { known.new.items ≡ filter (λ l. not (is_for rmb slot l.key)) known.old.items }
    ensures capacity { vec_capacity known.new ≡ vec_capacity known.old }
{
    known.retain(|e| !(e.rmb == rmb && e.link.slot == slot));
}

/// Puts what is learnt in the place of what was known of the RMB for the slot.
pub(crate) fn replace(known: &mut Vec<Entry>, new: Entry)
    requires { length (learns new known.old.items) ≤ vec_capacity known.old }
    ensures items { known.new.items ≡ learns new known.old.items }
    ensures capacity { vec_capacity known.old ≤ vec_capacity known.new }
{
    remove_for(known, new.rmb, new.link.slot);
    let _ = known.push(new);
}

/// Removes what is known of an RMB.
pub(crate) fn remove_rmb(known: &mut Vec<Entry>, rmb: u8)
    ensures items { known.new.items ≡ forgets rmb known.old.items }
    ensures capacity { vec_capacity known.new ≡ vec_capacity known.old }
{
    known.retain(|e| e.rmb != rmb);
}

/// Removes what is known of the RMBs that have a key on a link.
pub(crate) fn remove_named(known: &mut Vec<Entry>, key: u32, link: LinkId)
    ensures items { known.new.items ≡ forgets_named key link known.old.items }
    ensures capacity { vec_capacity known.new ≡ vec_capacity known.old }
{
    while let Some(rmb) = rmb_in(known, key, link) {
        remove_rmb(known, rmb);
    }
}

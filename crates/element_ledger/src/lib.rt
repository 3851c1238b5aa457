//! The elements of a side's RMBs, and the connections to which they are lent.
//!
//! An element is lent to one connection at a time, and is given back only once both ends of the
//! connection have gone: until then a write of the peer may still land in it (RFC 7609, section
//! 4.4.2). An element that is lent is always the lowest free one. Its epoch counts its lendings
//! from 1, so that what was said of an earlier lending is never taken for one of the present.
#![tactic(auto)]

ghost use Rattle.std.specs.Prelude.{◌≡◌, ◌-◌, ◌<◌, ◌^◌, ◌&&◌, ◌↔◌, false, not, All, filter, length, map, Some, option_and_then, option_map, IfErr, IfNone, IfOk, IfSome, IsErr, OnErr, OnOk};
ghost use Rattle.smc_num.specs.Places.{all_places, lowest_free};
ghost use Rattle.element_ledger.specs.Lendings.{IsLedger, IsLent, changed, changed_lending, changes_at, first_free, freed, fresh, is_idle, is_lent, lending_of, lends, lent_places, next_lending, own_gone, peer_gone, place_of};
ghost use Rattle.element_ledger.specs.declared.rows.Change.TheVariants.{OwnGone, PeerGone, GivenBack};

pub mod laws;
mod rows;

use crate::rows::{
    Change, Row, all_rows, change_at, count_free, first_free, free_all, is_idle, lend_at,
    lending_of,
};
use smc_num::NoMemory;
use std::alloc::Global;
use std::marker::Model;

/// An element in one of its lendings: its RMB and its place in it, both from 1, and which of its
/// lendings it is, from 1.
#[derive(Clone, Copy, Debug, PartialEq, Eq)]
pub struct Element {
    pub rmb: u8,
    pub index: u8,
    pub epoch: u32,
}

/// An end of the connection has not gone yet: which of the two have.
#[derive(Clone, Copy, Debug, PartialEq, Eq)]
pub struct StillLent {
    pub own: bool,
    pub peer: bool,
}

/// The elements of a side.
#[derive(Debug, Drop)]
pub struct Ledger {
    rmbs: u8,
    elements: u8,
    rows: Vec<Row>,
}

impl Model for Ledger {
    ghost use Rattle.std.specs.Prelude.{◌≤◌};
    ghost use Rattle.element_ledger.specs.Lendings.{Rows, IsLedger};

    ghost Value = { Rows };

    ghost view = { λ l. record { rmbs = l.rmbs; elements = l.elements; rows = l.rows.items } };

    ghost invariant = { λ l. IsLedger (record { rmbs = l.rmbs; elements = l.elements; rows = l.rows.items })
        × (l.rmbs ≤ 255) × (l.elements ≤ 255) };
}

impl Ledger {
    /// A ledger for so many RMBs of so many elements each, none of which was ever lent.
    pub fn new(alloc: Global, rmbs: u8, elements: u8) -> Result<Ledger, NoMemory>
        ensures { IfOk result (λ ledger. ledger ≡ record { rmbs = rmbs; elements = elements; rows = map fresh (all_places rmbs elements) }) }
    {
        let rows = all_rows(alloc, rmbs, elements)?;
        Ok(Ledger {
            rmbs,
            elements,
            rows,
        })
    }

    /// The lowest free element, by its RMB and its place in it.
    pub fn next_free(&self) -> Option<(u8, u8)>
        ensures first { result ≡ option_map (λ r. (r.place.rmb, r.place.index)) (first_free self.now.rows) }
        ensures lowest { result ≡ option_map (λ p. (p.rmb, p.index)) (lowest_free self.now.rmbs self.now.elements (lent_places self.now.rows)) }
        ensures kept { IsLedger self.now }
    {
        first_free(&self.rows).map(|row| (row.rmb, row.index))
    }

    /// Lends the lowest free element to a connection. Without one nothing changes.
    pub fn lend(&mut self, conn: u32) -> Option<Element>
        requires { All (λ r. r.epoch < 2 ^ 32 - 1) self.old.rows }
        ensures element { result ≡ option_map next_lending (first_free self.old.rows) }
        ensures lent { IfSome result (λ e. self.new ≡ record self.old { rows = map (changes_at (place_of e) (lends conn)) self.old.rows }) }
        ensures lending { IfSome result (λ e. lending_of e self.new.rows ≡ Some (record { conn = conn; own = false; peer = false })) }
        ensures none { IfNone result (self.new ≡ self.old) }
    {
        let element = first_free(&self.rows)?.next_lending();
        lend_at(&mut self.rows, element, conn);
        Some(element)
    }

    /// Notes that the own end of the connection has gone.
    pub fn own_gone(&mut self, e: Element)
        requires { IsLent e self.old.rows }
        ensures marked { self.new ≡ record self.old { rows = map (changes_at (place_of e) (changed OwnGone)) self.old.rows } }
        ensures lending { lending_of e self.new.rows ≡ option_and_then (changed_lending OwnGone) (lending_of e self.old.rows) }
    {
        change_at(&mut self.rows, e, Change::OwnGone);
    }

    /// Notes that the peer's end of the connection has gone.
    pub fn peer_gone(&mut self, e: Element)
        requires { IsLent e self.old.rows }
        ensures marked { self.new ≡ record self.old { rows = map (changes_at (place_of e) (changed PeerGone)) self.old.rows } }
        ensures lending { lending_of e self.new.rows ≡ option_and_then (changed_lending PeerGone) (lending_of e self.old.rows) }
    {
        change_at(&mut self.rows, e, Change::PeerGone);
    }

    /// Gives an element back, once both ends have gone. A refusal changes nothing.
    pub fn give_back(&mut self, e: Element) -> Result<(), StillLent>
        requires { IsLent e self.old.rows }
        ensures given { OnOk result (self.new ≡ record self.old { rows = map (changes_at (place_of e) (changed GivenBack)) self.old.rows }) }
        ensures missing { IsErr result ↔ ((own_gone e self.old.rows && peer_gone e self.old.rows) ≡ false) }
        ensures marks { IfErr result (λ still. still ≡ record { own = own_gone e self.old.rows; peer = peer_gone e self.old.rows }) }
        ensures refused { OnErr result (self.new ≡ self.old) }
    {
        let Some(lending) = lending_of(&self.rows, e) else {
            unreachable!()
        };
        if !(lending.own && lending.peer) {
            return Err(StillLent {
                own: lending.own,
                peer: lending.peer,
            });
        }
        change_at(&mut self.rows, e, Change::GivenBack);
        Ok(())
    }

    /// Ends all lendings. The elements' epochs go on.
    pub fn end_all(&mut self)
        ensures { self.new ≡ record self.old { rows = map freed self.old.rows } }
    {
        free_all(&mut self.rows);
    }

    /// How many elements are free.
    pub fn free(&self) -> u16
        ensures { result ≡ length (filter (λ r. not (is_lent r)) self.now.rows) }
    {
        count_free(&self.rows)
    }

    /// Whether no element of the RMB is lent.
    pub fn idle(&self, rmb: u8) -> bool
        ensures { result ≡ is_idle rmb self.now.rows }
    {
        is_idle(&self.rows, rmb)
    }
}

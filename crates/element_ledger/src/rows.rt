//! The elements as a list: what it has, and how it changes.
ghost use Rattle.std.specs.Prelude.{◌≡◌, ◌+◌, ◌-◌, ◌*◌, ◌<◌, ◌≤◌, ◌^◌, ◌++◌, ◌∷◌, [], not, All, filter, map, length, vec_len, vec_capacity, IfOk};
ghost use Rattle.smc_num.specs.Places.{all_places, places_in, same_place};
ghost use Rattle.element_ledger.specs.Lendings.{changed, changed_lending, changes_at, first_free, freed, fresh, is_idle, is_lent, is_now, lending_of, lends, next_lending, place_of};

use crate::Element;
use smc_num::NoMemory;
use std::alloc::Global;
use std::marker::Model;

/// To which connection an element is lent, and which of that connection's ends have gone.
#[derive(Clone, Copy, Debug)]
pub struct Lending {
    pub conn: u32,
    pub own: bool,
    pub peer: bool,
}

/// What becomes of a lending.
#[derive(Clone, Copy, Debug)]
pub enum Change {
    OwnGone,
    PeerGone,
    GivenBack,
}

/// An element, how often it was lent, and its lending now.
#[derive(Clone, Copy, Debug)]
pub struct Row {
    pub rmb: u8,
    pub index: u8,
    pub epoch: u32,
    pub lending: Option<Lending>,
}

impl Model for Row {
    ghost use Rattle.element_ledger.specs.Lendings.{Row as Shown};

    ghost Value = { Shown };

    ghost view = { λ r. record { place = record { rmb = r.rmb; index = r.index }; epoch = r.epoch; lending = r.lending } };

    ghost inverse = { λ s. record { rmb = s.place.rmb; index = s.place.index; epoch = s.epoch; lending = s.lending } };
}

impl Lending {
    fn changed(self, change: Change) -> Option<Lending>
        ensures { result ≡ changed_lending change self }
    {
        match change {
            Change::OwnGone => Some(Lending { own: true, ..self }),
            Change::PeerGone => Some(Lending { peer: true, ..self }),
            Change::GivenBack => None,
        }
    }
}

impl Row {
    fn is_at(&self, rmb: u8, index: u8) -> bool
        ensures { result ≡ same_place (record { rmb = rmb; index = index }) self.now.place }
    {
        rmb == self.rmb && index == self.index
    }

    fn is_lent(&self) -> bool
        ensures { result ≡ is_lent self.now }
    {
        self.lending.is_some()
    }

    fn is_now(&self, e: Element) -> bool
        ensures { result ≡ is_now e self.now }
    {
        self.is_at(e.rmb, e.index) && self.epoch == e.epoch
    }

    /// The element in its next lending.
    pub(crate) fn next_lending(self) -> Element
        requires { self.epoch < 2 ^ 32 - 1 }
        ensures { result ≡ next_lending self }
    {
        Element {
            rmb: self.rmb,
            index: self.index,
            epoch: self.epoch + 1,
        }
    }

    fn lent_at(self, e: Element, conn: u32) -> Row
        requires { self.epoch < 2 ^ 32 - 1 }
        ensures { result ≡ changes_at (place_of e) (lends conn) self }
    {
        if !self.is_at(e.rmb, e.index) {
            return self;
        }
        let lending = Lending {
            conn,
            own: false,
            peer: false,
        };
        let next = self.epoch + 1;
        Row {
            epoch: next,
            lending: Some(lending),
            ..self
        }
    }

    fn freed(self) -> Row
        ensures { result ≡ freed self }
    {
        Row {
            lending: None,
            ..self
        }
    }

    fn changed_at(self, e: Element, change: Change) -> Row
        ensures { result ≡ changes_at (place_of e) (changed change) self }
    {
        if !self.is_at(e.rmb, e.index) {
            return self;
        }
        Row {
            lending: self.lending.and_then(|lending| lending.changed(change)),
            ..self
        }
    }
}

/// Appends within the capacity.
fn push_within(rows: &mut Vec<Row>, row: Row)
    requires { vec_len rows.old < vec_capacity rows.old }
    ensures items { rows.new.items ≡ rows.old.items ++ row ∷ [] }
    ensures len { vec_len rows.new ≡ vec_len rows.old + 1 }
    ensures capacity { vec_capacity rows.old ≤ vec_capacity rows.new }
{
    let _ = rows.push(row);
}

/// Appends the elements of an RMB.
fn push_rmb(rows: &mut Vec<Row>, rmb: u8, elements: u8)
    requires { vec_len rows.old + elements ≤ vec_capacity rows.old }
    ensures items { rows.new.items ≡ rows.old.items ++ map fresh (places_in elements rmb) }
    ensures len { vec_len rows.new ≡ vec_len rows.old + elements }
    ensures capacity { vec_capacity rows.old ≤ vec_capacity rows.new }
{
    for i in 0..elements {
        let row = Row {
            rmb,
            index: i + 1,
            epoch: 0,
            lending: None,
        };
        push_within(rows, row);
    }
}

/// All elements, the lowest RMB first.
pub(crate) fn all_rows(alloc: Global, rmbs: u8, elements: u8) -> Result<Vec<Row>, NoMemory>
    ensures { IfOk result (λ rows. rows.items ≡ map fresh (all_places rmbs elements)) }
{
    let Ok(mut rows) = Vec::with_capacity(alloc, rmbs as usize * elements as usize) else {
        return Err(NoMemory);
    };
    for i in 0..rmbs {
        push_rmb(&mut rows, i + 1, elements);
    }
    Ok(rows)
}

/// The first element that is free.
pub(crate) fn first_free(rows: &[Row]) -> Option<Row>
    ensures { result ≡ first_free rows.now }
{
    for row in rows {
        if !row.is_lent() {
            return Some(*row);
        }
    }
    None
}

/// How many elements are free.
pub(crate) fn count_free(rows: &[Row]) -> u16
    requires { length rows.now < 2 ^ 16 }
    ensures { result ≡ length (filter (λ r. not (is_lent r)) rows.now) }
{
    let mut free = 0;
    for row in rows {
        if !row.is_lent() {
            free += 1;
        }
    }
    free
}

/// Lends an element.
pub(crate) fn lend_at(rows: &mut Vec<Row>, e: Element, conn: u32)
    requires { All (λ r. r.epoch < 2 ^ 32 - 1) rows.old.items }
    ensures { rows.new.items ≡ map (changes_at (place_of e) (lends conn)) rows.old.items }
{
    for row in rows.iter_mut() {
        *row = row.lent_at(e, conn);
    }
}

/// Changes the lending of an element.
pub(crate) fn change_at(rows: &mut Vec<Row>, e: Element, change: Change)
    ensures { rows.new.items ≡ map (changes_at (place_of e) (changed change)) rows.old.items }
{
    for row in rows.iter_mut() {
        *row = row.changed_at(e, change);
    }
}

/// Ends all lendings.
pub(crate) fn free_all(rows: &mut Vec<Row>)
    ensures { rows.new.items ≡ map freed rows.old.items }
{
    for row in rows.iter_mut() {
        *row = row.freed();
    }
}

/// The lending of an element in its epoch.
pub(crate) fn lending_of(rows: &[Row], e: Element) -> Option<Lending>
    ensures { result ≡ lending_of e rows.now }
{
    for row in rows {
        if row.is_now(e) {
            return row.lending;
        }
    }
    None
}

/// Whether no element of the RMB is lent.
pub(crate) fn is_idle(rows: &[Row], rmb: u8) -> bool
    ensures { result ≡ is_idle rmb rows.now }
{
    for row in rows {
        if row.rmb == rmb && row.is_lent() {
            return false;
        }
    }
    true
}

//! The requests of which a side may have one a slot: the tests and the deletions of links.
#![tactic(auto)]

ghost use Rattle.std.specs.Prelude.{◌≡◌, ◌≤◌, ◌==◌, ◌∷◌, not, false, filter};
ghost use Rattle.std.specs.List.{list_any};
ghost use Rattle.smc_num.specs.Names.{has};
ghost use Rattle.llc_flows.specs.Slots.{AreApart};

use arrayvec::ArrayVec;
use std::marker::Model;

/// Links have at most so many slots.
pub const MOST: usize = 8;

/// An outstanding DELETE LINK: the slot that it is for, and that of the link that carries it.
#[derive(Clone, Copy, Debug)]
pub struct Deletion {
    pub slot: u8,
    pub on: u8,
}

impl Model for Deletion {
    ghost use Rattle.pipe_model.specs.Flows.{Drop as Asked};

    ghost Value = { Asked };

    ghost view = { λ d. record { slot = d.slot; on = d.on } };

    ghost inverse = { λ d. record { slot = d.slot; on = d.on } };
}

impl Default for Deletion {
    /// A deletion of no slot.
    fn default() -> Deletion {
        Deletion { slot: 0, on: 0 }
    }
}

/// Whether the link of a slot is being tested.
pub fn is_tested(tests: &ArrayVec<u8, MOST>, slot: u8) -> bool
    ensures { result ≡ has slot tests.now.items }
{
    tests.as_slice().iter().any(|k| slot == *k)
}

/// Puts a slot in front of the tests.
pub fn put_test(tests: &mut ArrayVec<u8, MOST>, slot: u8)
    requires slot { (1 ≤ slot) × (slot ≤ 8) }
    requires untested { has slot tests.old.items ≡ false }
    requires apart { AreApart (λ k. k) tests.old.items }
    ensures items { tests.new.items ≡ slot ∷ tests.old.items }
    ensures apart { AreApart (λ k. k) tests.new.items }
{
    tests.insert(0, slot);
}

/// Takes a slot from the tests.
pub fn take_test(tests: &mut ArrayVec<u8, MOST>, slot: u8)
    ensures items { tests.new.items ≡ filter (λ k. not (k == slot)) tests.old.items }
    ensures apart { AreApart (λ k. k) tests.old.items → AreApart (λ k. k) tests.new.items }
{
    tests.retain(|k| *k != slot);
}

/// Whether a deletion of the link of a slot is outstanding.
pub fn is_dropped(drops: &ArrayVec<Deletion, MOST>, slot: u8) -> bool
    ensures { result ≡ list_any (λ d. d.slot == slot) drops.now.items }
{
    drops.as_slice().iter().any(|d| d.slot == slot)
}

/// Puts a deletion in front of the others.
pub fn put_drop(drops: &mut ArrayVec<Deletion, MOST>, deletion: Deletion)
    requires slot { (1 ≤ deletion.slot) × (deletion.slot ≤ 8) }
    requires none { list_any (λ d. d.slot == deletion.slot) drops.old.items ≡ false }
    requires apart { AreApart (λ d. d.slot) drops.old.items }
    ensures items { drops.new.items ≡ deletion ∷ drops.old.items }
    ensures apart { AreApart (λ d. d.slot) drops.new.items }
{
    drops.insert(0, deletion);
}

/// Takes the deletion of a slot from the others.
pub fn take_drop(drops: &mut ArrayVec<Deletion, MOST>, slot: u8)
    ensures items { drops.new.items ≡ filter (λ d. not (d.slot == slot)) drops.old.items }
    ensures apart { AreApart (λ d. d.slot) drops.old.items → AreApart (λ d. d.slot) drops.new.items }
{
    drops.retain(|d| d.slot != slot);
}

/// Takes the deletions away that the link of a slot carries.
pub fn lose_drops(drops: &mut ArrayVec<Deletion, MOST>, on: u8)
    ensures items { drops.new.items ≡ filter (λ d. not (d.on == on)) drops.old.items }
    ensures apart { AreApart (λ d. d.slot) drops.old.items → AreApart (λ d. d.slot) drops.new.items }
{
    drops.retain(|d| d.on != on);
}

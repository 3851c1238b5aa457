//! The links of a side by slot, and which of them a connection goes to.
//!
//! A link group has several links so that connections outlive the failure of one (RFC 7609, section
//! 4.6). The table has, for each slot, the latest link that the side made there and its phase: it is
//! pending from its making, live once confirmed, and dead once the side has reported it. New
//! connections go to the live link with the fewest of them, the lowest on a tie, and connections whose
//! link is lost move to the lowest live one.
#![tactic(auto)]

ghost use Rattle.std.specs.Prelude.{◌≡◌, ◌+◌, ◌-◌, ◌≤◌, ◌↔◌, false, true, [], ◌∷◌, length, map, option_map, replicate, slice_index, slice_set, IfSome, IsNone, All};
ghost use Rattle.smc_num.specs.Names.{has_link, up_to};
ghost use Rattle.smc_num.specs.Links.{first_live, is_live, is_standing, link_at, live_links, lowest_live, phase_at, put, set_phase};
ghost use Rattle.smc_num.specs.declared.LinkPhase.TheVariants.{Pending, Live, Dead};
ghost use Rattle.failover.specs.Choices.{lowest_from, IsFewest, is_due_for_move};
ghost use Rattle.failover.specs.Tables.{Links, AreRising};

mod choices;
pub mod laws;

use crate::choices::is_live;
pub use crate::choices::{fewest, lowest_live};
use smc_num::{LinkId, LinkPhase};
use std::marker::Model;

/// Links have at most so many slots.
const MOST: usize = 8;

/// The links of one side by slot. It takes no memory.
#[derive(Debug, Drop)]
pub struct LinkTable {
    slots: u8,
    phases: [LinkPhase; MOST],
    latest: [LinkId; MOST],
}

impl Model for LinkTable {
    ghost use Rattle.std.specs.Prelude.{◌≡◌, ◌≤◌, length, map, take};
    ghost use Rattle.smc_num.specs.declared.LinkId.{LinkId as Link};
    ghost use Rattle.failover.specs.Tables.{Links, known_in, AreInOrder};

    ghost Value = { Links };

    ghost view = { λ t. record { slots = t.slots; known = known_in (take t.slots t.phases) (take t.slots t.latest); made = map (λ (l : Link). l.incarnation) (take t.slots t.latest) } };

    ghost invariant = { λ t. (t.slots ≤ 8) × (length t.phases ≡ 8) × (length t.latest ≡ 8) × AreInOrder 1 (take t.slots t.latest) };
}

// No link was made on the slot.
fn unmade(slot: u8) -> LinkId
    ensures { result ≡ record { group = 0; slot = slot; incarnation = 0 } }
{
    LinkId {
        group: 0,
        slot,
        incarnation: 0,
    }
}

impl LinkTable {
    /// A table of so many slots, all unused, on which no link was ever made.
    pub fn new(slots: u8) -> LinkTable
        requires { (1 ≤ slots) × (slots ≤ 8) }
        ensures { result ≡ record { slots = slots; known = []; made = replicate slots 0 } }
    {
        LinkTable {
            slots,
            phases: [LinkPhase::Unused; MOST],
            latest: [
                unmade(1),
                unmade(2),
                unmade(3),
                unmade(4),
                unmade(5),
                unmade(6),
                unmade(7),
                unmade(8),
            ],
        }
    }

    /// The number of links made on the slot so far, in all groups.
    pub fn made(&self, slot: u8) -> u32
        requires { (1 ≤ slot) × (slot ≤ self.now.slots) }
        ensures { result ≡ slice_index self.now.made (slot - 1) }
    {
        self.latest[slot as usize - 1].incarnation
    }

    /// A link is made on its slot, where none stands. It is pending.
    pub fn make(&mut self, link: LinkId)
        requires slot { (1 ≤ link.slot) × (link.slot ≤ self.old.slots) }
        requires none_stands { is_standing (phase_at link.slot self.old.known) ≡ false }
        requires next { link.incarnation ≡ slice_index self.old.made (link.slot - 1) + 1 }
        ensures { self.new ≡ record self.old { known = put (record { link = link; phase = Pending }) self.old.known; made = slice_set self.old.made (link.slot - 1) link.incarnation } }
    {
        let at = link.slot as usize - 1;
        self.phases[at] = LinkPhase::Pending;
        self.latest[at] = link;
    }

    /// The pending link of the slot is live.
    pub fn confirm(&mut self, slot: u8)
        requires slot { (1 ≤ slot) × (slot ≤ self.old.slots) }
        requires pending { phase_at slot self.old.known ≡ Pending }
        ensures { self.new ≡ record self.old { known = set_phase slot Live self.old.known } }
    {
        self.phases[slot as usize - 1] = LinkPhase::Live;
    }

    /// The link that stands on the slot is dead.
    pub fn report(&mut self, slot: u8)
        requires slot { (1 ≤ slot) × (slot ≤ self.old.slots) }
        requires stands { is_standing (phase_at slot self.old.known) ≡ true }
        ensures { self.new ≡ record self.old { known = set_phase slot Dead self.old.known } }
    {
        self.phases[slot as usize - 1] = LinkPhase::Dead;
    }

    /// Forgets the links of a group, none of which stands any more. The numbers made stay.
    pub fn clear(&mut self)
        requires { All (λ known. is_standing known.phase ≡ false) self.old.known }
        ensures { self.new ≡ record self.old { known = [] } }
    {
        self.phases = [LinkPhase::Unused; MOST];
    }

    /// The latest link of the slot in this group. An unused slot has none.
    pub fn link(&self, slot: u8) -> Option<LinkId>
        ensures { result ≡ link_at slot self.now.known }
    {
        if self.slots < slot {
            return None;
        }
        if slot == 0 {
            return None;
        }
        let at = slot as usize - 1;
        match self.phases[at] {
            LinkPhase::Unused => None,
            _ => Some(self.latest[at]),
        }
    }

    /// Whether that very link is live.
    pub fn is_live(&self, link: LinkId) -> bool
        ensures { result ≡ has_link link (live_links self.now.known) }
    {
        if self.slots < link.slot {
            return false;
        }
        if link.slot == 0 {
            return false;
        }
        let at = link.slot as usize - 1;
        is_live(self.phases[at]) && link == self.latest[at]
    }

    /// Whether an established end on that very link moves to another one, where `may_move` says that
    /// its group stands and its own closed or aborted snapshot has not completed.
    pub fn due_for_move(&self, link: LinkId, may_move: bool) -> bool
        ensures { result ≡ is_due_for_move link self.now.known may_move }
    {
        !self.is_live(link) && may_move
    }

    /// The lowest slot whose link is live, or 0.
    pub fn lowest(&self) -> u8
        ensures { result ≡ lowest_live self.now.known }
    {
        lowest_live(&self.phases[..self.slots as usize]).unwrap_or(0)
    }

    /// The phases in the order of the slots.
    pub fn phases(&self) -> &[LinkPhase]
        ensures phases { result.now ≡ map (λ k. phase_at k self.now.known) (up_to self.now.slots) }
        // So the lowest live slot of these phases is that of the first live link.
        ensures lowest { lowest_from 1 result.now ≡ option_map (λ link. link.slot) (first_live self.now.known) }
        ensures rising { AreRising 1 self.now.slots self.now.known }
    {
        &self.phases[..self.slots as usize]
    }
}

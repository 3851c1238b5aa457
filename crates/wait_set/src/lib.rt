//! A set of places on a board of alerts, asked by polls alone: which is the lowest that is ready?
//!
//! A member is ready by what a load of its place found: a flag of its mask is set, and for an edge member the number is above the one at which it was last picked.
//! A pick loads each member's place at most once, from the lowest on, and ends at the first that is ready. It takes no lock and no memory, and never waits.
#![tactic(auto)]

ghost use Rattle.std.specs.Prelude.{◌≡◌, ◌≢◌, ◌<◌, ◌≤◌, ◌↔◌, ℕ, [], All, IfNone, IfOk, IfSome, IsErrOf, IsNone, IsSome, IsTrue, OnErr, OnOk, None, Some, length};
ghost use Rattle.alert_board.specs.Alerts.{Later, news_at};
ghost use Rattle.std.specs.Bool.{OnFalse, OnTrue};
ghost use Rattle.wait_set.specs.Waiting.{waiting_at};
ghost use Rattle.wait_set.specs.Picks.{IsAdded, IsNonePicked, IsPicked, IsRemoved, SamePlaces};

mod member;
mod search;

use crate::member::Waiting;
pub use crate::member::{Member, SetFault};
use crate::search::{first_ready, position};
use alert_board::{Board, Look, News, NoMemory};
use std::alloc::Global;
use std::marker::Model;

/// Members by rising place, each with the number at which it was last picked, 0 at first.
#[derive(Debug, Drop)]
pub struct WaitSet {
    members: Vec<Waiting>,
    most: u32,
}

impl Model for WaitSet {
    ghost use Rattle.std.specs.Prelude.{◌≤◌, length, vec_capacity};
    ghost use Rattle.wait_set.specs.Waiting.{IsRising, Shown};

    ghost Value = { Shown };

    ghost view = { λ s. record { members = s.members.items; most = s.most } };

    ghost invariant = { λ s. IsRising s.members.items × (length s.members.items ≤ s.most) × (s.most ≤ vec_capacity s.members) };
}

impl WaitSet {
    /// A set that has no member yet, with memory for so many: 1 to 512.
    pub fn new(alloc: Global, most: u32) -> Result<WaitSet, NoMemory>
        requires { (1 ≤ most) × (most ≤ 512) }
        ensures { IfOk result (λ set. (set.members ≡ []) × (set.most ≡ most)) }
    {
        let members = Vec::with_capacity(alloc, most as usize)?;
        Ok(WaitSet { members, most })
    }

    /// Adds a member that was never picked. It takes no memory.
    pub fn add(&mut self, member: Member) -> Result<(), SetFault>
        ensures twice { IsErrOf result (SetFault.Twice member.place) ↔ IsSome (waiting_at self.old.members member.place) }
        ensures full { IsErrOf result (SetFault.Full self.old.most) ↔ (IsNone (waiting_at self.old.members member.place) × (length self.old.members ≡ self.old.most)) }
        ensures ok { OnOk result (IsAdded member self.old.members self.new.members × (self.new.most ≡ self.old.most)) }
        ensures err { OnErr result (self.new ≡ self.old) }
    {
        let place = member.place;
        match position(&self.members, place) {
            Ok(_) => Err(SetFault::Twice { place }),
            Err(_) if self.members.len() == self.most as usize => {
                Err(SetFault::Full { members: self.most })
            }
            Err(at) => {
                self.members
                    .insert(at, Waiting { member, picked: 0 })
                    .unwrap();
                Ok(())
            }
        }
    }

    /// Takes a member out, and tells whether it was there.
    pub fn remove(&mut self, place: u32) -> bool
        ensures there { IsTrue result ↔ IsSome (waiting_at self.old.members place) }
        ensures removed { OnTrue result (IsRemoved place self.old.members self.new.members × (self.new.most ≡ self.old.most)) }
        ensures absent { OnFalse result (self.new ≡ self.old) }
    {
        match position(&self.members, place) {
            Ok(at) => {
                self.members.remove(at);
                true
            }
            Err(_) => false,
        }
    }

    /// The lowest member that is ready, by its place, with the news by which it is. It takes no lock and no memory, and never waits.
    pub fn pick(&mut self, look: &mut Look, board: &Board) -> Option<(u32, News)>
        requires board { look.old.board ≡ board.now }
        requires places { (p : ℕ) → IsSome (waiting_at self.old.members p) → p < board.now.words }
        ensures places { SamePlaces self.old.members self.new.members }
        ensures look { (look.new.board ≡ look.old.board) × ((p : ℕ) → Later (news_at look.old.seen p) (news_at look.new.seen p)) }
        ensures some { IfSome result (λ r. IsPicked r.0 r.1 self.old.members self.new.members look.old look.new × (self.new.most ≡ self.old.most)) }
        ensures none { IfNone result (IsNonePicked self.old.members look.old look.new × (self.new ≡ self.old)) }
    {
        let (at, news) = first_ready(&self.members, look, board)?;
        let waiting = &mut self.members[at];
        waiting.picked = news.number;
        Some((waiting.member.place, news))
    }
}

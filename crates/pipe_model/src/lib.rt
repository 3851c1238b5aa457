//! What happens between two SMC-R peers, as a list of entries: who did what, what it was told, and
//! what the two managers posted with it.
//!
//! This crate has the types that every other crate speaks of. An [`Event`] is one action of one
//! actor on the whole state; a [`Reply`] is what the actor is told; a [`Post`] is what a manager
//! sends; an [`Entry`] has all of these. A history is a list of entries, numbered from 1.
//!
//! In `specs/` stands what a lawful history is: each event is told what the private pipe of its
//! connection, or the history before it, gives, and nothing else is posted.
#![tactic(auto)]

mod closing;
mod entry;
mod event;
mod flow;
mod laws;
mod pipe_laws;
mod plain;
mod post;
mod reply;
mod sent;
mod setup;
mod snapshot;
mod verdict;

pub use cdc_wire::CdcMessage;
pub use clc_wire::{ClcFault, ClcMessage, Offer, Proposal, Refusal};
pub use closing::Phase;
pub use entry::{Entry, StepFault};
pub use event::{End, Event};
pub use flow::{FlowStep, KeyPhase, LinkView};
pub use laws::{
    a_kept_cause_stays, a_lack_is_named_only_where_it_holds, calls_are_told_by_the_pipe,
    each_entry_is_a_lawful_step, equal_parts_are_told_the_same, near_parts_are_claimed_whole,
};
pub use llc_wire::{KeyToken, LlcMessage, NewKey};
pub use pipe_laws::{
    an_end_that_is_over_is_shut, closed_is_told_behind_all_bytes, counts_fit,
    ends_that_are_over_have_told_their_last, marks_fit, messages_carry_few_bytes,
    no_bytes_follow_the_last_snapshot, nothing_is_due, parts_of_few_snapshots_are_near,
    parts_without_swallows_are_near, reads_back, reads_stay_behind_what_was_told,
    the_flight_is_what_has_not_completed, the_next_bytes_go_on,
    the_next_snapshot_is_within_the_distances, the_next_snapshot_may_be_taken,
    the_oldest_snapshot_completes, told_bytes_have_landed, what_shows_no_gap_was_taken,
};
pub use plain::{PlainCall, PlainEnd, PlainPipe, PlainTold};
pub use post::{Placed, Post, PostRef, Posts};
pub use reply::{Hold, Lack, Reply, ResetCause, SentKind};
pub use sent::Sent;
pub use setup::{Room, Setup};
pub use smc_num::{Cursor, LinkId, LinkPhase, Side};
pub use snapshot::Snapshot;
pub use verdict::{ClcStep, Lacks};

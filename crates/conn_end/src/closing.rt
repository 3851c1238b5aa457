//! How an end closes (RFC 7609, section 4.8): the table of its phases, and what a phase says.
ghost use Rattle.std.specs.Prelude.{◌≡◌, ◌<◌, ℕ, List};
ghost use Rattle.pipe_model.specs.Calls.{Plain};
ghost use Rattle.pipe_model.specs.Closing.{cause_of as cause_at, is_closing, is_finished, is_group_gone, after_posting, after_completing, after_moving, ended_with, may_move};
ghost use Rattle.conn_end.specs.Table.{state_of as state_at, place_of, cause_in, after_action, told_by, after_step, step_told};
ghost use Rattle.conn_end.specs.Told.{told_of};

use crate::answers::EndReply;
use field_cases::{Cases, Row, Sound};
use pipe_model::{Phase, ResetCause, Snapshot};
use std::marker::Model;

/// What leads an end on with closing: calls of its application, and the peer's abort or a gap, which
/// strike it.
#[derive(Clone, Copy, Debug, PartialEq, Eq)]
pub(crate) enum Step {
    Finish,
    Close,
    Abort,
    Strike(ResetCause),
}

// The phases of the table.
const OPEN: u8 = 0;

const FINISHED: u8 = 1;

const CLOSING: u8 = 2;

const CLOSE_POSTED: u8 = 3;

const CLOSE_DONE: u8 = 4;

const RESETTING: u8 = 5;

const ABORT_POSTED: u8 = 6;

const ABORT_DONE: u8 = 7;

// The steps of the table.
const FINISH: u8 = 0;

const CLOSE: u8 = 1;

const ABORT: u8 = 2;

const STRIKE: u8 = 3;

// The actions of the table: the phase stays, or goes on to finished, closing or resetting.
const STAY: u8 = 0;

const TO_FINISHED: u8 = 1;

const TO_CLOSING: u8 = 2;

const TO_RESETTING: u8 = 3;

// One row.
macro_rules! row {
    ($state:expr, $message:expr, $action:expr) => {
        Row {
            state: $state,
            message: $message,
            action: $action,
        }
    };
}

const TABLE: Cases<32> = Cases {
    rows: [
        row!(OPEN, FINISH, TO_FINISHED),
        row!(OPEN, CLOSE, TO_CLOSING),
        row!(OPEN, ABORT, TO_RESETTING),
        row!(OPEN, STRIKE, TO_RESETTING),
        row!(FINISHED, FINISH, STAY),
        row!(FINISHED, CLOSE, TO_CLOSING),
        row!(FINISHED, ABORT, TO_RESETTING),
        row!(FINISHED, STRIKE, TO_RESETTING),
        row!(CLOSING, FINISH, STAY),
        row!(CLOSING, CLOSE, STAY),
        row!(CLOSING, ABORT, STAY),
        row!(CLOSING, STRIKE, TO_RESETTING),
        row!(CLOSE_POSTED, FINISH, STAY),
        row!(CLOSE_POSTED, CLOSE, STAY),
        row!(CLOSE_POSTED, ABORT, STAY),
        row!(CLOSE_POSTED, STRIKE, STAY),
        row!(CLOSE_DONE, FINISH, STAY),
        row!(CLOSE_DONE, CLOSE, STAY),
        row!(CLOSE_DONE, ABORT, STAY),
        row!(CLOSE_DONE, STRIKE, STAY),
        row!(RESETTING, FINISH, STAY),
        row!(RESETTING, CLOSE, STAY),
        row!(RESETTING, ABORT, STAY),
        row!(RESETTING, STRIKE, STAY),
        row!(ABORT_POSTED, FINISH, STAY),
        row!(ABORT_POSTED, CLOSE, STAY),
        row!(ABORT_POSTED, ABORT, STAY),
        row!(ABORT_POSTED, STRIKE, STAY),
        row!(ABORT_DONE, FINISH, STAY),
        row!(ABORT_DONE, CLOSE, STAY),
        row!(ABORT_DONE, ABORT, STAY),
        row!(ABORT_DONE, STRIKE, STAY),
    ],
    states: 8,
    messages: 4,
};

/// The closing table. Contracts see its rows.
#[derive(Drop)]
pub(crate) struct ClosingTable {
    table: Sound<32>,
}

impl Model for ClosingTable {
    ghost use Rattle.std.specs.Prelude.{◌≡◌, List};
    ghost use Rattle.field_cases.specs.declared.table.Row.{Row as Line};
    ghost use Rattle.conn_end.specs.Table.{IsClosing};

    ghost Value = { List Line };

    ghost view = { λ t. t.table.cases.rows };

    ghost invariant = { λ t. (t.table.cases.states ≡ 8) × (t.table.cases.messages ≡ 4) × IsClosing t.table.cases.rows };
}

impl ClosingTable {
    /// The table.
    pub(crate) fn new() -> ClosingTable {
        match TABLE.check() {
            Ok(table) => ClosingTable { table },
            Err(_) => unreachable!(),
        }
    }

    // The action of a step.
    fn action(&self, step: Step, phase: Phase) -> u8
        ensures phase { after_action result (cause_in step) phase ≡ after_step step phase }
        ensures answer { told_by result ≡ step_told step phase }
    {
        self.table.pick(state_of(phase), row_of(step))
    }

    /// The phase after a step.
    pub(crate) fn after(&self, step: Step, phase: Phase) -> Phase
        ensures { result ≡ after_step step phase }
    {
        led_to(self.action(step, phase), cause_of_step(step), phase)
    }

    /// What a step is told, where no reset came.
    pub(crate) fn told(&self, step: Step, phase: Phase) -> EndReply
        ensures { (rd : ℕ) (peer_out : List ℕ) → told_of result rd peer_out ≡ Plain (step_told step phase) }
    {
        if self.action(step, phase) == STAY {
            EndReply::Ended
        } else {
            EndReply::Done
        }
    }
}

fn state_of(phase: Phase) -> u8
    ensures row { result ≡ state_at phase }
    ensures known { result < 8 }
{
    match phase {
        Phase::Open => OPEN,
        Phase::Finished => FINISHED,
        Phase::Closing => CLOSING,
        Phase::ClosePosted => CLOSE_POSTED,
        Phase::CloseDone => CLOSE_DONE,
        Phase::Resetting(_) => RESETTING,
        Phase::AbortPosted(_) => ABORT_POSTED,
        Phase::AbortDone(_) | Phase::GroupGone(_) => ABORT_DONE,
    }
}

fn row_of(step: Step) -> u8
    ensures row { result ≡ place_of step }
    ensures known { result < 4 }
{
    match step {
        Step::Finish => FINISH,
        Step::Close => CLOSE,
        Step::Abort => ABORT,
        Step::Strike(_) => STRIKE,
    }
}

fn cause_of_step(step: Step) -> ResetCause
    ensures { result ≡ cause_in step }
{
    match step {
        Step::Strike(cause) => cause,
        _ => ResetCause::OwnAbort,
    }
}

fn led_to(action: u8, cause: ResetCause, phase: Phase) -> Phase
    ensures { result ≡ after_action action cause phase }
{
    match action {
        TO_FINISHED => Phase::Finished,
        TO_CLOSING => Phase::Closing,
        TO_RESETTING => Phase::Resetting(cause),
        _ => phase,
    }
}

/// Why an end is reset.
pub(crate) fn cause_of(phase: Phase) -> Option<ResetCause>
    ensures { result ≡ cause_at phase }
{
    match phase {
        Phase::Resetting(cause) | Phase::AbortPosted(cause) | Phase::AbortDone(cause) => {
            Some(cause)
        }
        Phase::GroupGone(group) => Some(ResetCause::NoLiveLink { group }),
        _ => None,
    }
}

/// Whether close was called and no reset came.
pub(crate) fn closing(phase: Phase) -> bool
    ensures { result ≡ is_closing phase }
{
    matches!(
        phase,
        Phase::Closing | Phase::ClosePosted | Phase::CloseDone
    )
}

/// Whether finish was called and nothing since.
pub(crate) fn finished(phase: Phase) -> bool
    ensures { result ≡ is_finished phase }
{
    matches!(phase, Phase::Finished)
}

/// Whether it was reset with its group.
pub(crate) fn group_gone(phase: Phase) -> bool
    ensures { result ≡ is_group_gone phase }
{
    matches!(phase, Phase::GroupGone(_))
}

/// The phase after the group ended.
pub(crate) fn on_group_end(group: u32, phase: Phase) -> Phase
    ensures { result ≡ ended_with group phase }
{
    match phase {
        Phase::Open | Phase::Finished | Phase::Closing => Phase::GroupGone(group),
        _ => phase,
    }
}

/// The phase after the end posted this snapshot.
pub(crate) fn on_posting(s: Snapshot, phase: Phase) -> Phase
    ensures { result ≡ after_posting s phase }
{
    match phase {
        Phase::Closing if s.closed => Phase::ClosePosted,
        Phase::Resetting(cause) => Phase::AbortPosted(cause),
        _ => phase,
    }
}

/// The phase after this snapshot of the end completed.
pub(crate) fn on_completion(s: Snapshot, phase: Phase) -> Phase
    ensures { result ≡ after_completing s phase }
{
    match phase {
        Phase::ClosePosted if s.closed => Phase::CloseDone,
        Phase::AbortPosted(cause) if s.aborted => Phase::AbortDone(cause),
        _ => phase,
    }
}

/// The phase after a move, which leaves an uncompleted last snapshot to be posted again.
pub(crate) fn on_move(phase: Phase) -> Phase
    ensures { result ≡ after_moving phase }
{
    match phase {
        Phase::ClosePosted => Phase::Closing,
        Phase::AbortPosted(cause) => Phase::Resetting(cause),
        _ => phase,
    }
}

/// Whether an end may leave its link: its own last snapshot has not completed, and its group stands.
pub(crate) fn may_move(phase: Phase) -> bool
    ensures { result ≡ may_move phase }
{
    !matches!(
        phase,
        Phase::CloseDone | Phase::AbortDone(_) | Phase::GroupGone(_)
    )
}

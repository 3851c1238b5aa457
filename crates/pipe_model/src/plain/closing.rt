//! The table of closing: what each call and each message does to the phase of an end.
ghost use Rattle.std.specs.Prelude.{◌≡◌};
ghost use Rattle.pipe_model.specs.Closing.{cause_of, is_closing, is_finished, is_group_gone, after_finish, after_close, after_abort, struck, ended_with, after_posting, after_completing, after_moving, may_move, finish_told, close_told, abort_told};

use crate::closing::Phase;
use crate::reply::{Reply, ResetCause};
use crate::snapshot::Snapshot;

/// Why an end is reset.
pub(super) fn cause(phase: Phase) -> Option<ResetCause>
    ensures { result ≡ cause_of phase }
{
    match phase {
        Phase::Resetting(cause) | Phase::AbortPosted(cause) | Phase::AbortDone(cause) => Some(
            cause,
        ),
        Phase::GroupGone(group) => Some(ResetCause::NoLiveLink { group }),
        _ => None,
    }
}

/// Whether close was called and no reset came.
pub(super) fn closing(phase: Phase) -> bool
    ensures { result ≡ is_closing phase }
{
    matches!(
        phase,
        Phase::Closing | Phase::ClosePosted | Phase::CloseDone
    )
}

/// Whether finish was called and nothing since.
pub(super) fn finished(phase: Phase) -> bool
    ensures { result ≡ is_finished phase }
{
    matches!(phase, Phase::Finished)
}

/// Whether it was reset with its group.
pub(super) fn group_gone(phase: Phase) -> bool
    ensures { result ≡ is_group_gone phase }
{
    matches!(phase, Phase::GroupGone(_))
}

/// The phase after finish was called.
pub(super) fn on_finish(phase: Phase) -> Phase
    ensures { result ≡ after_finish phase }
{
    match phase {
        Phase::Open => Phase::Finished,
        _ => phase,
    }
}

/// The phase after close was called.
pub(super) fn on_close(phase: Phase) -> Phase
    ensures { result ≡ after_close phase }
{
    match phase {
        Phase::Open | Phase::Finished => Phase::Closing,
        _ => phase,
    }
}

/// The phase after abort was called.
pub(super) fn on_abort(phase: Phase) -> Phase
    ensures { result ≡ after_abort phase }
{
    match phase {
        Phase::Open | Phase::Finished => Phase::Resetting(ResetCause::OwnAbort),
        _ => phase,
    }
}

/// The phase after the peer's abort or a gap struck.
pub(super) fn on_strike(cause: ResetCause, phase: Phase) -> Phase
    ensures { result ≡ struck cause phase }
{
    match phase {
        Phase::Open | Phase::Finished | Phase::Closing => Phase::Resetting(cause),
        _ => phase,
    }
}

/// The phase after its group ended.
pub(super) fn on_group_end(group: u32, phase: Phase) -> Phase
    ensures { result ≡ ended_with group phase }
{
    match phase {
        Phase::Open | Phase::Finished | Phase::Closing => Phase::GroupGone(group),
        _ => phase,
    }
}

/// The phase after the end posted this snapshot.
pub(super) fn on_posting(s: Snapshot, phase: Phase) -> Phase
    ensures { result ≡ after_posting s phase }
{
    match phase {
        Phase::Closing if s.closed => Phase::ClosePosted,
        Phase::Resetting(cause) => Phase::AbortPosted(cause),
        _ => phase,
    }
}

/// The phase after this snapshot of the end completed.
pub(super) fn on_completion(s: Snapshot, phase: Phase) -> Phase
    ensures { result ≡ after_completing s phase }
{
    match phase {
        Phase::ClosePosted if s.closed => Phase::CloseDone,
        Phase::AbortPosted(cause) if s.aborted => Phase::AbortDone(cause),
        _ => phase,
    }
}

/// The phase after a move, which leaves an uncompleted last snapshot to be posted again.
pub(super) fn on_move(phase: Phase) -> Phase
    ensures { result ≡ after_moving phase }
{
    match phase {
        Phase::ClosePosted => Phase::Closing,
        Phase::AbortPosted(cause) => Phase::Resetting(cause),
        _ => phase,
    }
}

/// Whether it may move: its last snapshot has not completed, and its group is not gone.
pub(super) fn movable(phase: Phase) -> bool
    ensures { result ≡ may_move phase }
{
    !matches!(
        phase,
        Phase::CloseDone | Phase::AbortDone(_) | Phase::GroupGone(_)
    )
}

/// What finish is told, where no reset came.
pub(super) fn finish_reply(phase: Phase) -> Reply
    ensures { result ≡ finish_told phase }
{
    match phase {
        Phase::Open => Reply::Done,
        _ => Reply::Ended,
    }
}

/// What close is told, where no reset came.
pub(super) fn close_reply(phase: Phase) -> Reply
    ensures { result ≡ close_told phase }
{
    match phase {
        Phase::Open | Phase::Finished => Reply::Done,
        _ => Reply::Ended,
    }
}

/// What abort is told, where no reset came.
pub(super) fn abort_reply(phase: Phase) -> Reply
    ensures { result ≡ abort_told phase }
{
    match phase {
        Phase::Open | Phase::Finished => Reply::Done,
        _ => Reply::Ended,
    }
}

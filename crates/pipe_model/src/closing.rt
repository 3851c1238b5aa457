//! How far an end has come with closing.
use crate::reply::ResetCause;

/// How far an end has come with closing (RFC 7609, section 4.8), with the cause where it was reset.
#[derive(Clone, Copy, Debug, PartialEq, Eq)]
pub enum Phase {
    /// Nothing was called.
    Open,
    /// Finish was called.
    Finished,
    /// Close was called; closed is not posted.
    Closing,
    /// Closed is posted.
    ClosePosted,
    /// Closed has completed.
    CloseDone,
    /// It was reset; aborted is not posted.
    Resetting(ResetCause),
    /// Aborted is posted.
    AbortPosted(ResetCause),
    /// Aborted has completed.
    AbortDone(ResetCause),
    /// It was reset as this group ended at its side.
    GroupGone(u32),
}

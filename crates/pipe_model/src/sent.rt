//! The CDC messages of an end.
use crate::snapshot::Snapshot;
use smc_num::LinkId;

/// A CDC message that an end posted on a link: a snapshot with the bytes from place `from` up to its
/// told count, or (`check`) a validation message.
#[derive(Clone, Copy, Debug, PartialEq, Eq)]
pub struct Sent {
    pub link: LinkId,
    pub check: bool,
    pub from: u64,
    pub snapshot: Snapshot,
}

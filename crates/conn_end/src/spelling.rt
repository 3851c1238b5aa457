//! How snapshots are spelled as CDC messages (RFC 7609, appendix A.4).
ghost use Rattle.std.specs.Prelude.{◌≡◌, ◌<◌};
ghost use Rattle.smc_num.specs.Numbers.{wire_number, cursor_of};
ghost use Rattle.pipe_model.specs.Snapshot.{state_flags, spelled, validation, first_snapshot, tells_same, is_last, is_validation};

use cdc_wire::{ABNORMAL_CLOSE, CLOSED, CdcMessage, FAILOVER_VALIDATION, SENDING_DONE};
use pipe_model::Snapshot;
use smc_num::Cursor;

/// The 16 bits of a number that a message carries.
pub(crate) fn wire(number: u64) -> u16
    ensures { result ≡ wire_number number }
{
    (number % 65_536) as u16
}

/// The cursor of a place in an element of `size` bytes.
fn cursor(size: u32, place: u64) -> Cursor
    requires { 0 < size }
    ensures { result ≡ cursor_of size place }
{
    Cursor {
        wrap: wire(place / size as u64),
        count: (place % size as u64) as u32,
    }
}

/// The connection state flags of a snapshot.
fn flags(s: Snapshot) -> u8
    ensures { result ≡ state_flags s }
{
    let done = if s.done { SENDING_DONE } else { 0 };
    let closed = if s.closed { CLOSED } else { 0 };
    let aborted = if s.aborted { ABNORMAL_CLOSE } else { 0 };
    done + (closed + aborted)
}

/// The message that tells a snapshot.
pub(crate) fn spell(size: u32, token: u32, s: Snapshot) -> CdcMessage
    requires { 0 < size }
    ensures { result ≡ spelled size token s }
{
    CdcMessage {
        number: wire(s.number),
        token,
        told: cursor(size, s.told),
        read: cursor(size, s.read),
        producer: 0,
        state: flags(s),
    }
}

/// The validation message of a snapshot (RFC 7609, section 4.6).
pub(crate) fn spell_check(size: u32, token: u32, s: Snapshot) -> CdcMessage
    requires { 0 < size }
    ensures { result ≡ validation size token s }
{
    CdcMessage {
        number: wire(s.number),
        token,
        told: cursor(size, s.told),
        read: cursor(size, s.read),
        producer: FAILOVER_VALIDATION,
        state: 0,
    }
}

/// Whether it is a validation message.
pub(crate) fn checks(message: &CdcMessage) -> bool
    ensures { result ≡ is_validation message.now }
{
    message.producer != 0
}

/// What counts as told and taken before anything was.
pub(crate) fn first(number: u16) -> Snapshot
    ensures { result ≡ first_snapshot number }
{
    Snapshot {
        number: (number as u64).saturating_sub(1),
        told: 0,
        read: 0,
        done: false,
        closed: false,
        aborted: false,
    }
}

/// Whether two snapshots tell the same, whatever their numbers.
pub(crate) fn same_told(a: Snapshot, b: Snapshot) -> bool
    ensures { result ≡ tells_same a b }
{
    (a.told == b.told && a.read == b.read)
        && (a.done == b.done && (a.closed == b.closed && a.aborted == b.aborted))
}

/// Whether an end tells nothing after it.
pub(crate) fn last_one(s: Snapshot) -> bool
    ensures { result ≡ is_last s }
{
    s.closed || s.aborted
}

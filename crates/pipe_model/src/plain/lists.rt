//! Parts of lists, cut off where the list ends.
ghost use Rattle.std.specs.Prelude.{◌≡◌, ◌<◌, ◌↔◌, IsSome, take, drop, length};
ghost use Rattle.smc_num.specs.Names.{head};

use crate::sent::Sent;

/// At most the first `count` bytes.
pub(super) fn front(bytes: &[u8], count: u64) -> &[u8]
    ensures { result.now ≡ take count bytes.now }
{
    if count < bytes.len() as u64 {
        &bytes[..count as usize]
    } else {
        bytes
    }
}

/// The items behind the first `count`.
pub(super) fn behind<T>(items: &[T], count: usize) -> &[T]
    ensures { result.now ≡ drop count items.now }
{
    if count < items.len() {
        &items[count..]
    } else {
        &[]
    }
}

/// The message behind the first `count`, where there is one.
pub(super) fn next(sent: &[Sent], count: usize) -> Option<Sent>
    ensures message { result ≡ head (drop count sent.now) }
    ensures any { IsSome result ↔ (count < length sent.now) }
{
    if count < sent.len() {
        Some(sent[count])
    } else {
        None
    }
}

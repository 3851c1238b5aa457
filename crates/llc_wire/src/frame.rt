//! What all LLC messages share.

ghost use Rattle.std.specs.Prelude.{◌≡◌, ◌+◌, ◌<◌, ◌≤◌, length};
ghost use Rattle.field_cases.specs.Fields.{bytes_at};
ghost use Rattle.llc_wire.specs.Frame.{is_set, flag as flag_of};

use arrayvec::ArrayVec;
use field_cases::get;

/// The length byte of every message.
pub(crate) const LENGTH: u8 = 44;

/// The flag of an answer.
pub(crate) const REPLY: u8 = 0x80;

/// Whether a bit of the flags is set.
pub(crate) fn has(flags: u8, bit: u8) -> bool
    requires { 0 < bit }
    ensures { result ≡ is_set bit flags }
{
    flags / bit % 2 == 1
}

/// The bit where it is to be set, and else 0.
pub(crate) fn flag(on: bool, bit: u8) -> u8
    ensures value { result ≡ flag_of on bit }
    ensures bound { result ≤ bit }
{
    if on { bit } else { 0 }
}

/// A message to which all its bytes were appended.
pub(crate) fn whole(out: ArrayVec<u8, 44>) -> [u8; 44]
    requires { length out.items ≡ 44 }
    ensures { result ≡ out.items }
{
    match out.into_inner() {
        Ok(bytes) => bytes,
        Err(_) => unreachable!(),
    }
}

/// The MAC at a place.
pub(crate) fn mac_at(bytes: &[u8; 44], place: usize) -> [u8; 6]
    requires { place + 6 ≤ 44 }
    ensures { result ≡ bytes_at 6 place bytes.now }
{
    get!(bytes; 6 bytes at place)
}

/// The GID at a place.
pub(crate) fn gid_at(bytes: &[u8; 44], place: usize) -> [u8; 16]
    requires { place + 16 ≤ 44 }
    ensures { result ≡ bytes_at 16 place bytes.now }
{
    get!(bytes; 16 bytes at place)
}

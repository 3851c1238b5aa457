//! Fixed fields of messages: `put!` appends them in the order of the wire, `get!` reads one at its
//! place. All numbers are big-endian.
#![tactic(auto)]

ghost use Rattle.std.specs.Prelude.{◌≡◌, ◌≤◌, ◌<◌, ◌+◌, ◌^◌, ◌++◌, ◌∷◌, [], length};
ghost use Rattle.byteorder.specs.Endian.{big_bytes};

use arrayvec::ArrayVec;
use byteorder::{BigEndian, ByteOrder};

/// Appends one byte to a message.
pub fn append_u8<const N: usize>(out: &mut ArrayVec<u8, N>, byte: u8)
    requires { length out.old.items + 1 ≤ N }
    ensures { out.new.items ≡ out.old.items ++ byte ∷ [] }
{
    out.push(byte);
}

/// Appends a run of bytes to a message.
pub fn append_bytes<const N: usize>(out: &mut ArrayVec<u8, N>, bytes: &[u8])
    requires { length out.old.items + length bytes.now ≤ N }
    ensures { out.new.items ≡ out.old.items ++ bytes.now }
{
    if out.try_extend_from_slice(bytes).is_err() {
        unreachable!()
    }
}

/// Appends a number of two bytes.
pub fn append_u16<const N: usize>(out: &mut ArrayVec<u8, N>, number: u16)
    requires { length out.old.items + 2 ≤ N }
    ensures { out.new.items ≡ out.old.items ++ big_bytes 2 number }
{
    let mut bytes = [0; 2];
    BigEndian::write_u16(&mut bytes, number);
    append_bytes(out, &bytes);
}

/// Appends a number of three bytes. It is below 2^24.
pub fn append_u24<const N: usize>(out: &mut ArrayVec<u8, N>, number: u32)
    requires room { length out.old.items + 3 ≤ N }
    requires fits { number < 2 ^ 24 }
    ensures { out.new.items ≡ out.old.items ++ big_bytes 3 number }
{
    let mut bytes = [0; 3];
    BigEndian::write_u24(&mut bytes, number);
    append_bytes(out, &bytes);
}

/// Appends a number of four bytes.
pub fn append_u32<const N: usize>(out: &mut ArrayVec<u8, N>, number: u32)
    requires { length out.old.items + 4 ≤ N }
    ensures { out.new.items ≡ out.old.items ++ big_bytes 4 number }
{
    let mut bytes = [0; 4];
    BigEndian::write_u32(&mut bytes, number);
    append_bytes(out, &bytes);
}

/// Appends a number of eight bytes.
pub fn append_u64<const N: usize>(out: &mut ArrayVec<u8, N>, number: u64)
    requires { length out.old.items + 8 ≤ N }
    ensures { out.new.items ≡ out.old.items ++ big_bytes 8 number }
{
    let mut bytes = [0; 8];
    BigEndian::write_u64(&mut bytes, number);
    append_bytes(out, &bytes);
}

/// Appends the fields of a message in order. `out` is a `&mut ArrayVec<u8, N>`, and each field is
/// its shape and its value: `put!(out; u8 1, bytes mac, u24 queue_pair, u32 key)`. The shapes are
/// `u8`, `u16`, `u24`, `u32`, `u64` and `bytes`.
#[macro_export]
macro_rules! put {
    ($out:expr;) => {};
    ($out:expr; u8 $value:expr $(, $($rest:tt)*)?) => {
        $crate::append_u8($out, $value);
        $crate::put!($out; $($($rest)*)?);
    };
    ($out:expr; bytes $value:expr $(, $($rest:tt)*)?) => {
        $crate::append_bytes($out, $value);
        $crate::put!($out; $($($rest)*)?);
    };
    ($out:expr; u16 $value:expr $(, $($rest:tt)*)?) => {
        $crate::append_u16($out, $value);
        $crate::put!($out; $($($rest)*)?);
    };
    ($out:expr; u24 $value:expr $(, $($rest:tt)*)?) => {
        $crate::append_u24($out, $value);
        $crate::put!($out; $($($rest)*)?);
    };
    ($out:expr; u32 $value:expr $(, $($rest:tt)*)?) => {
        $crate::append_u32($out, $value);
        $crate::put!($out; $($($rest)*)?);
    };
    ($out:expr; u64 $value:expr $(, $($rest:tt)*)?) => {
        $crate::append_u64($out, $value);
        $crate::put!($out; $($($rest)*)?);
    };
}

/// Reads one field of a message at its place, counted from 0: `get!(message; u24 at 38)` is a
/// number, and `get!(message; 6 bytes at 32)` an array. `message` is a slice or an array of bytes
/// that reaches past the field.
#[macro_export]
macro_rules! get {
    ($message:expr; u8 at $place:expr) => {
        $message[$place]
    };
    ($message:expr; u16 at $place:expr) => {
        <$crate::BigEndian as $crate::ByteOrder>::read_u16(&$message[$place..])
    };
    ($message:expr; u24 at $place:expr) => {
        <$crate::BigEndian as $crate::ByteOrder>::read_u24(&$message[$place..])
    };
    ($message:expr; u32 at $place:expr) => {
        <$crate::BigEndian as $crate::ByteOrder>::read_u32(&$message[$place..])
    };
    ($message:expr; u64 at $place:expr) => {
        <$crate::BigEndian as $crate::ByteOrder>::read_u64(&$message[$place..])
    };
    ($message:expr; $count:literal bytes at $place:expr) => {{
        let mut field = [0; $count];
        field.copy_from_slice(&$message[$place..$place + $count]);
        field
    }};
}

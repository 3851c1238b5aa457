//! The header of 8 bytes that all CLC messages have: the eye catcher, a type, the length of the whole
//! message in 2 bytes, and a byte with the version and a mark. The eye catcher stands again at the
//! end of each message.
#![tactic(auto)]

ghost use Rattle.std.specs.Prelude.{◌≡◌, ◌≤◌, ◌<◌, length, IfOk};
ghost use Rattle.clc_wire.specs.Header.{eye_catcher, written_length, allows, header_bytes, eye_byte_at, eye_at, kind_of, kind_at, length_at, mark_at, header_at, trailer_at};

use crate::fault::ClcFault;
use arrayvec::ArrayVec;
use field_cases::{get, put};

/// The eye catcher, "SMCR" in EBCDIC.
pub const EYE_CATCHER: [u8; 4] = [0xe2, 0xd4, 0xc3, 0xd9];

/// The types of messages.
#[derive(Clone, Copy, Debug, PartialEq, Eq)]
pub enum Kind {
    Proposal = 1,
    Accept = 2,
    Confirm = 3,
    Decline = 4,
}

/// A header that was read.
#[derive(Clone, Copy, Debug, PartialEq, Eq)]
pub struct Header {
    pub kind: Kind,
    /// The length of the whole message, in bytes.
    pub length: u16,
    /// First contact in Accept and Confirm, out of synch in Decline.
    pub mark: bool,
}

impl Kind {
    fn of_code(code: u8) -> Result<Kind, ClcFault>
        ensures { result ≡ kind_of code }
    {
        match code {
            1 => Ok(Kind::Proposal),
            2 => Ok(Kind::Accept),
            3 => Ok(Kind::Confirm),
            4 => Ok(Kind::Decline),
            value => Err(ClcFault::BadType { value }),
        }
    }

    // The length in bytes, as it is written.
    fn written_length(self) -> u16
        ensures { result ≡ written_length self }
    {
        match self {
            Kind::Proposal => 52,
            Kind::Accept | Kind::Confirm => 68,
            Kind::Decline => 28,
        }
    }

    // Whether a message of this type may have this length. Only a Proposal may be longer than it is
    // written.
    fn allows(self, length: u16) -> bool
        ensures { result ≡ allows self length }
    {
        match self {
            Kind::Proposal => 52 <= length && length <= 1024,
            Kind::Accept | Kind::Confirm => length == 68,
            Kind::Decline => length == 28,
        }
    }
}

/// Begins a message anew with its header.
pub fn put_header(out: &mut ArrayVec<u8, 68>, kind: Kind, mark: bool)
    ensures { out.new.items ≡ header_bytes kind mark }
{
    out.clear();
    let version_and_mark = if mark { 0x18 } else { 0x10 };
    put!(out; bytes &EYE_CATCHER, u8 kind as u8, u16 kind.written_length(), u8 version_and_mark);
}

// Checks one byte of the eye catcher.
fn check_byte(place: usize, wanted: u8, bytes: &[u8]) -> Result<(), ClcFault>
    requires { place < 256 }
    ensures { result ≡ eye_byte_at place wanted bytes.now }
{
    if bytes.len() <= place {
        return Err(ClcFault::Short);
    }
    if bytes[place] == wanted {
        Ok(())
    } else {
        Err(ClcFault::BadEye { place: place as u8 })
    }
}

// Checks the bytes in front, one after another.
fn check_front(wanted: &[u8], bytes: &[u8]) -> Result<(), ClcFault>
    requires { length wanted.now < 256 }
    ensures { result ≡ eye_at 0 wanted.now bytes.now }
{
    for (place, byte) in wanted.iter().enumerate() {
        check_byte(place, *byte, bytes)?;
    }
    Ok(())
}

fn read_kind(bytes: &[u8]) -> Result<Kind, ClcFault>
    ensures { result ≡ kind_at bytes.now }
{
    if bytes.len() < 5 {
        return Err(ClcFault::Short);
    }
    Kind::of_code(bytes[4])
}

fn read_length(kind: Kind, bytes: &[u8]) -> Result<u16, ClcFault>
    ensures { result ≡ length_at kind bytes.now }
{
    if bytes.len() < 7 {
        return Err(ClcFault::Short);
    }
    let length = get!(bytes; u16 at 5);
    if kind.allows(length) {
        Ok(length)
    } else {
        Err(ClcFault::BadLength { value: length })
    }
}

fn read_mark(bytes: &[u8]) -> Result<bool, ClcFault>
    ensures { result ≡ mark_at bytes.now }
{
    if bytes.len() < 8 {
        return Err(ClcFault::Short);
    }
    let version = bytes[7] / 16;
    if version == 1 {
        Ok(bytes[7] / 8 % 2 == 1)
    } else {
        Err(ClcFault::BadVersion { value: version })
    }
}

/// Reads the header of the message at the front, whose bytes are then all there.
pub fn read_header(bytes: &[u8]) -> Result<Header, ClcFault>
    ensures header { result ≡ header_at bytes.now }
    ensures there { IfOk result (λ header. header.length ≤ length bytes.now) }
{
    check_front(&EYE_CATCHER, bytes)?;
    let kind = read_kind(bytes)?;
    let length = read_length(kind, bytes)?;
    let mark = read_mark(bytes)?;
    if bytes.len() < length as usize {
        return Err(ClcFault::Short);
    }
    Ok(Header { kind, length, mark })
}

/// Checks the eye catcher at the end of a message.
pub fn check_trailer(len: u16, bytes: &[u8]) -> Result<(), ClcFault>
    requires room { 4 ≤ len }
    requires there { len ≤ length bytes.now }
    ensures { result ≡ trailer_at len bytes.now }
{
    let trailer = len as usize - EYE_CATCHER.len();
    if bytes[trailer..].starts_with(&EYE_CATCHER) {
        Ok(())
    } else {
        Err(ClcFault::BadTrailer)
    }
}

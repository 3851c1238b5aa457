//! CONFIRM RKEY: a side tells its peer the keys of a buffer.

ghost use Rattle.std.specs.Prelude.{◌≡◌, ◌+◌, ◌≤◌, ◌++◌, length};
ghost use Rattle.llc_wire.specs.ConfirmRkey.{confirm_rkey_bytes, confirm_rkey_read, token_bytes, token_at};

use crate::{KeyToken, LlcFault, LlcMessage, frame};
use arrayvec::ArrayVec;
use field_cases::{get, put};

pub(crate) const TYPE: u8 = 6;

const MOST: u8 = 2;

const NEGATIVE: u8 = 0x20;

const RETRY: u8 = 0x10;

pub(crate) fn write(
    reply: bool,
    retry: bool,
    negative: bool,
    others: u8,
    tokens: &[KeyToken; 3],
) -> [u8; 44]
    ensures { result ≡ confirm_rkey_bytes reply retry negative others tokens.now }
{
    let mut out: ArrayVec<u8, 44> = ArrayVec::new();
    let flags = frame::flag(reply, frame::REPLY)
        + frame::flag(negative, NEGATIVE)
        + frame::flag(retry, RETRY);
    put!(&mut out; u8 TYPE, u8 frame::LENGTH, u8 0, u8 flags);
    append_token(&mut out, others, &tokens[0]);
    append_token(&mut out, tokens[1].number, &tokens[1]);
    append_token(&mut out, tokens[2].number, &tokens[2]);
    put!(&mut out; u8 0);
    frame::whole(out)
}

fn append_token(out: &mut ArrayVec<u8, 44>, number: u8, token: &KeyToken)
    requires { length out.old.items + 13 ≤ 44 }
    ensures { out.new.items ≡ out.old.items ++ token_bytes number token.now }
{
    put!(out; u8 number, u32 token.key, u64 token.address);
}

pub(crate) fn read(bytes: &[u8; 44]) -> Result<LlcMessage, LlcFault>
    ensures { result ≡ confirm_rkey_read bytes.now }
{
    let others = get!(bytes; u8 at 4);
    if others > MOST {
        return Err(LlcFault::BadCount { value: others });
    }
    Ok(LlcMessage::ConfirmRkey {
        reply: frame::has(bytes[3], frame::REPLY),
        retry: frame::has(bytes[3], RETRY),
        negative: frame::has(bytes[3], NEGATIVE),
        others,
        tokens: [token_at(bytes, 4), token_at(bytes, 17), token_at(bytes, 30)],
    })
}

fn token_at(bytes: &[u8; 44], place: usize) -> KeyToken
    requires { place + 13 ≤ 44 }
    ensures { result ≡ token_at place bytes.now }
{
    KeyToken {
        number: get!(bytes; u8 at place),
        key: get!(bytes; u32 at place + 1),
        address: get!(bytes; u64 at place + 5),
    }
}

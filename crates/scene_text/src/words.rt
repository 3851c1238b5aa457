//! The words of a scene: how a line is cut into words, and the shapes that a word may have.
//!
//! Each shape is read by one function, which equals its definition.

ghost use Rattle.std.specs.Prelude.{◌≡◌, ◌==◌, ◌<◌, ◌≤◌, ◌^◌, ◌∷◌, ◌++◌, [], IfOk, OnOk, MatchOption, IfSome, map, length, position, filter, nat_lt};
ghost use Rattle.std.specs.List.{list_all};
ghost use Rattle.scene_text.specs.Words.{map_ok, Gives, parts, words_of, number_of, number_in, is_name_byte, is_name, name_of, side_of, side_in, answer_of, as_subnet, address_with, address_of, has_host_bits, subnet_with, subnet_in, subnet_of, named_end, end_of, byte_of, times_of, run_of, runs_of};

use crate::faults::{LineFault, LineKind};
use crate::limits::{MOST_DIGITS, MOST_NAME_BYTES, MOST_PREFIX_BITS};
use smc_num::Side;
use std::alloc::{AllocError, Global};

/// The place of the first such byte.
fn place_of(bytes: &[u8], mark: u8) -> Option<usize>
    ensures { result ≡ position (λ b. b == mark) bytes.now }
{
    bytes.iter().position(|byte| *byte == mark)
}

/// What stands before the first such byte and what stands behind it, if there is one.
#[tactic(auto, using(crate::proofs::Cutting::whole_where_none, crate::proofs::Cutting::cut_at_first))]
pub fn cut(bytes: &[u8], mark: u8) -> Option<(&[u8], &[u8])>
    ensures parts { MatchOption result
        (parts mark bytes.now ≡ bytes.now ∷ [])
        (λ halves. parts mark bytes.now ≡ halves.0.now ∷ parts mark halves.1.now) }
    ensures shorter { IfSome result (λ halves. length halves.1.now < length bytes.now) }
{
    let at = place_of(bytes, mark)?;
    Some((&bytes[..at], &bytes[at + 1..]))
}

/// A number of decimal digits.
#[tactic(auto, using(crate::proofs::Numbers::small_power))]
pub(crate) fn number_of(word: &[u8]) -> Result<u32, LineKind>
    ensures { result ≡ number_of word.now }
{
    if word.is_empty() || word.len() > MOST_DIGITS as usize {
        return Err(LineKind::Number);
    }
    let mut value = 0u32;
    for byte in word {
        match char::from(*byte).to_digit(10) {
            Some(digit) => value = value * 10 + digit,
            None => return Err(LineKind::Number),
        }
    }
    Ok(value)
}

/// A number from `least` to `most`.
pub(crate) fn number_in(word: &[u8], least: u32, most: u32) -> Result<u32, LineKind>
    ensures { result ≡ number_in least most word.now }
{
    let n = number_of(word)?;
    if least <= n && n <= most {
        Ok(n)
    } else {
        Err(LineKind::Range)
    }
}

/// The same of numbers of 8 bits.
pub(crate) fn small_in(word: &[u8], least: u8, most: u8) -> Result<u8, LineKind>
    ensures read { result ≡ number_in least most word.now }
    ensures range { IfOk result (λ n. n ≤ most) }
{
    let n = number_of(word)?;
    if least as u32 <= n && n <= most as u32 {
        Ok(n as u8)
    } else {
        Err(LineKind::Range)
    }
}

/// The same of numbers of 16 bits.
pub(crate) fn short_in(word: &[u8], least: u16, most: u16) -> Result<u16, LineKind>
    ensures { result ≡ number_in least most word.now }
{
    let n = number_of(word)?;
    if least as u32 <= n && n <= most as u32 {
        Ok(n as u16)
    } else {
        Err(LineKind::Range)
    }
}

/// Whether a name may have this byte behind its first.
fn is_name_byte(byte: u8) -> bool
    ensures { result ≡ is_name_byte byte }
{
    byte.is_ascii_lowercase() || byte.is_ascii_digit() || byte == b'_'
}

fn are_name_bytes(bytes: &[u8]) -> bool
    ensures { result ≡ list_all is_name_byte bytes.now }
{
    bytes.iter().all(|byte| is_name_byte(*byte))
}

fn is_name(word: &[u8]) -> bool
    ensures { result ≡ is_name word.now }
{
    match word {
        [] => false,
        [first, others @ ..] => {
            first.is_ascii_lowercase()
                && others.len() < MOST_NAME_BYTES as usize
                && are_name_bytes(others)
        }
    }
}

/// A name.
#[tactic(auto, using(crate::proofs::Names::name_is_text))]
pub(crate) fn name_of(word: &[u8]) -> Result<&str, LineKind>
    ensures { map_ok (λ name. name.now) result ≡ name_of word.now }
{
    if !is_name(word) {
        return Err(LineKind::Name);
    }
    match str::from_utf8(word) {
        Ok(name) => Ok(name),
        Err(_) => unreachable!(),
    }
}

/// The side with this letter.
fn side_of(letter: u8) -> Result<Side, LineKind>
    ensures { result ≡ side_of letter }
{
    match letter {
        b'A' => Ok(Side::A),
        b'B' => Ok(Side::B),
        _ => Err(LineKind::Side),
    }
}

/// A side alone.
pub(crate) fn side_in(word: &[u8]) -> Result<Side, LineKind>
    ensures { result ≡ side_in word.now }
{
    match word {
        [letter] => side_of(*letter),
        _ => Err(LineKind::Side),
    }
}

/// Yes or no.
pub(crate) fn answer_of(word: &[u8]) -> Result<bool, LineKind>
    ensures { result ≡ answer_of word.now }
{
    match word {
        b"yes" => Ok(true),
        b"no" => Ok(false),
        _ => Err(LineKind::Answer),
    }
}

/// One end of the socket with this name.
#[derive(Clone, Copy, Debug)]
pub(crate) struct NamedEnd<'a> {
    pub side: Side,
    pub name: &'a str,
}

/// An end: a side, a point and a name.
pub(crate) fn end_of(word: &[u8]) -> Result<NamedEnd<'_>, LineKind>
    ensures { map_ok named_end result ≡ end_of word.now }
{
    match word {
        [letter, b'.', name @ ..] => {
            let side = side_of(*letter)?;
            let name = name_of(name)?;
            Ok(NamedEnd { side, name })
        }
        _ => Err(LineKind::Side),
    }
}

/// So many of one byte.
#[derive(Clone, Copy, Debug, PartialEq, Eq)]
pub(crate) struct Run {
    pub byte: u8,
    pub count: u32,
}

/// A byte in two hexadecimal digits.
pub fn byte_of(high: u8, low: u8) -> Result<u8, LineKind>
    ensures { result ≡ byte_of high low }
{
    match (char::from(high).to_digit(16), char::from(low).to_digit(16)) {
        (Some(high), Some(low)) => Ok((high * 16 + low) as u8),
        _ => Err(LineKind::Bytes),
    }
}

/// How often a byte comes.
fn times_of(word: &[u8]) -> Result<u32, LineKind>
    ensures { result ≡ times_of word.now }
{
    match number_of(word) {
        Ok(n) if n != 0 => Ok(n),
        _ => Err(LineKind::Bytes),
    }
}

/// An item: a byte, or a byte, a star and how often it comes.
fn run_of(item: &[u8]) -> Result<Run, LineKind>
    ensures { result ≡ run_of item.now }
{
    match item {
        [high, low] => {
            let byte = byte_of(*high, *low)?;
            Ok(Run { byte, count: 1 })
        }
        [high, low, b'*', times @ ..] => {
            let byte = byte_of(*high, *low)?;
            let count = times_of(times)?;
            Ok(Run { byte, count })
        }
        _ => Err(LineKind::Bytes),
    }
}

/// Bytes: items with commas between them, or a hyphen for none.
pub(crate) fn runs_of(alloc: Global, word: &[u8]) -> Result<Vec<Run>, LineFault>
    ensures { Gives (λ runs. runs.items) result (runs_of word.now) }
{
    let mut runs = Vec::new(alloc);
    if word == b"-".as_slice() {
        return Ok(runs);
    }
    let mut rest = word;
    while let Some((item, after)) = cut(rest, b',') {
        let run = run_of(item)?;
        runs.push(run)?;
        rest = after;
    }
    let run = run_of(rest)?;
    runs.push(run)?;
    Ok(runs)
}

/// Adds a word, unless it is empty.
fn push_word<'a>(words: &mut Vec<&'a [u8]>, word: &'a [u8]) -> Result<(), AllocError>
    ensures { OnOk result (map (λ w. w.now) words.new.items ≡ map (λ w. w.now) words.old.items ++ filter (λ w. nat_lt 0 (length w)) (word.now ∷ [])) }
{
    if !word.is_empty() {
        words.push(word)?;
    }
    Ok(())
}

/// The words of a line.
pub fn words_of<'a>(alloc: Global, line: &'a [u8]) -> Result<Vec<&'a [u8]>, AllocError>
    ensures { IfOk result (λ words. map (λ w. w.now) words.items ≡ words_of line.now) }
{
    let mut words = Vec::new(alloc);
    let mut rest = line;
    while let Some((word, after)) = cut(rest, b' ') {
        push_word(&mut words, word)?;
        rest = after;
    }
    push_word(&mut words, rest)?;
    Ok(words)
}

/// The parts of a text between the bytes of one kind.
fn parts_of<'a>(alloc: Global, text: &'a [u8], mark: u8) -> Result<Vec<&'a [u8]>, AllocError>
    ensures { IfOk result (λ found. map (λ p. p.now) found.items ≡ parts mark text.now) }
{
    let mut found = Vec::new(alloc);
    let mut rest = text;
    while let Some((part, after)) = cut(rest, mark) {
        found.push(part)?;
        rest = after;
    }
    found.push(rest)?;
    Ok(found)
}

/// A number of a subnet, at most so large.
fn subnet_part(word: &[u8], most: u8) -> Result<u8, LineKind>
    ensures read { result ≡ as_subnet (number_in 0 most word.now) }
    ensures range { IfOk result (λ n. n ≤ most) }
{
    match small_in(word, 0, most) {
        Ok(n) => Ok(n),
        Err(_) => Err(LineKind::Subnet),
    }
}

/// An address of four numbers.
fn address_with(a: &[u8], b: &[u8], c: &[u8], d: &[u8]) -> Result<u32, LineKind>
    ensures { result ≡ address_with a.now b.now c.now d.now }
{
    let a = subnet_part(a, 255)?;
    let b = subnet_part(b, 255)?;
    let c = subnet_part(c, 255)?;
    let d = subnet_part(d, 255)?;
    Ok(((a as u32 * 256 + b as u32) * 256 + c as u32) * 256 + d as u32)
}

/// An address: four numbers with points between them.
fn address_of(alloc: Global, word: &[u8]) -> Result<u32, LineFault>
    ensures { Gives (λ n. n) result (address_of word.now) }
{
    let numbers = parts_of(alloc, word, b'.')?;
    match numbers.as_slice() {
        [a, b, c, d] => Ok(address_with(a, b, c, d)?),
        _ => Err(LineFault::Bad(LineKind::Subnet)),
    }
}

/// Whether an address has a bit behind its prefix.
#[tactic(auto, using(crate::proofs::Numbers::host_power, crate::proofs::Numbers::host_power_is_some))]
fn has_host_bits(address: u32, prefix: u8) -> bool
    requires { prefix ≤ MOST_PREFIX_BITS }
    ensures { result ≡ has_host_bits address prefix }
{
    address as u64 % 2u64.pow((MOST_PREFIX_BITS - prefix) as u32) != 0
}

/// The subnet of an address and the length of the prefix.
fn subnet_with(alloc: Global, address: &[u8], prefix: &[u8]) -> Result<(u32, u8), LineFault>
    ensures { Gives (λ net. net) result (subnet_with address.now prefix.now) }
{
    let address = address_of(alloc, address)?;
    let prefix = subnet_part(prefix, MOST_PREFIX_BITS)?;
    if has_host_bits(address, prefix) {
        return Err(LineFault::Bad(LineKind::Subnet));
    }
    Ok((address, prefix))
}

/// The subnet of these two parts.
fn subnet_in(alloc: Global, halves: &[&[u8]]) -> Result<(u32, u8), LineFault>
    ensures { Gives (λ net. net) result (subnet_in (map (λ p. p.now) halves.now)) }
{
    match halves {
        [address, prefix] => subnet_with(alloc, address, prefix),
        _ => Err(LineFault::Bad(LineKind::Subnet)),
    }
}

/// A subnet: an address, a slash and the length of the prefix.
pub(crate) fn subnet_of(alloc: Global, word: &[u8]) -> Result<(u32, u8), LineFault>
    ensures { Gives (λ net. net) result (subnet_of word.now) }
{
    let halves = parts_of(alloc, word, b'/')?;
    subnet_in(alloc, &halves)
}

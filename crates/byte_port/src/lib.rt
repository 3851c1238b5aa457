//! The outside: where bytes come from and where they go to.
//!
//! A [`Source`] hands over the bytes that it has left, a [`Sink`] takes bytes behind those that it
//! holds. Both count their faults: a call answers [`Failed`] only where that count rose, and then
//! nothing was handed over or taken. [`MemorySource`] and [`MemorySink`] tell all of their bytes, and
//! the calls that are named to them fail; [`ReaderSource`] and [`WriterSink`] adapt std's `Read` and
//! `Write` and tell nothing of content: they are the trusted edge.
#![tactic(auto)]

ghost use Rattle.std.specs.Prelude.{◌≡◌, ◌≤◌, ◌<◌, ℕ, List, [], take, drop, length, Option, Some, None, IfOk, IfErr, ◌++◌, min, OnOk, OnErr, ◌^◌, ◌+◌, Err};
ghost use Rattle.byte_port.specs.Causes.{HasCause, HandsOver, TakesIn, Grew, IsRead, Rose};

pub mod memory;
pub mod page;
pub mod streams;

pub use memory::{MemorySink, MemorySource, NoMemory};
pub use page::{PAGE_BYTES, Page};
pub use streams::{ReaderSource, WriterSink};

/// A call that came to nothing: a fault was counted, and no byte was moved.
#[derive(Clone, Copy, Debug, PartialEq, Eq)]
pub struct Failed;

/// Where bytes come from.
pub trait Source {
    /// The bytes that it has left, where it tells that.
    ghost left: { Self → Option (List ℕ) };
    /// How many calls failed; a u64, which stays at its greatest value once it is there.
    ghost faults: { Self → ℕ };

    /// Hands over the next bytes, at most as many as `out` has. `Ok(0)` for an `out` that isn't empty
    /// means the end. After [`Failed`] it has left what it had.
    fn read(&mut self, out: &mut [u8]) -> Result<usize, Failed>
        ensures bound { IfOk result (λ n. n ≤ length out.new) }
        ensures bytes { HandsOver (left self.old) (left self.new) result out.new }
        ensures cause { HasCause (faults self.old) (faults self.new) result };
}

/// Where bytes go to.
pub trait Sink {
    /// The bytes that it holds, where it tells that.
    ghost held: { Self → Option (List ℕ) };
    /// How many calls failed; a u64, which stays at its greatest value once it is there.
    ghost faults: { Self → ℕ };

    /// Takes a front of the piece, and some of it where it isn't empty. After [`Failed`] it holds what
    /// it held.
    fn write(&mut self, piece: &[u8]) -> Result<usize, Failed>
        ensures bound { IfOk result (λ n. n ≤ length piece.now) }
        ensures some { IfOk result (λ n. 0 < length piece.now → 0 < n) }
        ensures bytes { TakesIn (held self.old) (held self.new) result piece.now }
        ensures cause { HasCause (faults self.old) (faults self.new) result };
}

/// Writes all of the text. Where it fails, the sink's count rose and a front of the text stands.
pub fn write_all<K: Sink>(sink: &mut K, text: &[u8]) -> Result<(), Failed>
    ensures all { OnOk result (Grew (K.held sink.old) (K.held sink.new) text.now) }
    ensures front { (n : ℕ) × (n ≤ length text.now) × Grew (K.held sink.old) (K.held sink.new) (take n text.now) }
    ensures cause { HasCause (K.faults sink.old) (K.faults sink.new) result }
{
    let mut done: usize = 0;
    while done < text.len() {
        let count = sink.write(&text[done..])?;
        done += count;
    }
    Ok(())
}

/// Why an input was not read to its end.
#[derive(Clone, Copy, Debug, PartialEq, Eq)]
pub enum InputFault {
    /// There was no memory for it.
    NoMemory,
    /// The source failed.
    Failed,
    /// More bytes were taken than allowed.
    TooLong,
}

/// Appends bytes where there is memory for them.
fn append(input: &mut Vec<u8>, piece: &[u8]) -> Result<(), InputFault>
    ensures all { OnOk result (input.new.items ≡ input.old.items ++ piece.now) }
    ensures memory { IfErr result (λ fault. fault ≡ InputFault.NoMemory) }
{
    match input.extend_from_slice(piece) {
        Ok(()) => Ok(()),
        Err(_) => Err(InputFault::NoMemory),
    }
}

/// Reads the input to its end, behind the bytes that stand in `input`, at most `limit` in all.
pub fn read_input<S: Source>(
    source: &mut S,
    limit: usize,
    input: &mut Vec<u8>,
) -> Result<(), InputFault>
    requires limit { limit < 2 ^ 32 }
    requires empty { input.old.items ≡ [] }
    ensures all { OnOk result (IsRead (S.left source.old) input.new.items) }
    ensures short { OnOk result (length input.new.items ≤ limit) }
    ensures cause { result ≡ Err InputFault.Failed → Rose (S.faults source.old) (S.faults source.new) }
    ensures long { result ≡ Err InputFault.TooLong → limit < length input.new.items }
    ensures taken { result ≡ Err InputFault.TooLong → (rest : List ℕ) × IsRead (S.left source.old) (input.new.items ++ rest) }
    ensures later { S.faults source.old ≤ S.faults source.new }
{
    let mut buffer = [0; 4096];
    for _ in 0..=limit {
        let count = match source.read(&mut buffer) {
            Ok(count) => count,
            Err(_) => return Err(InputFault::Failed),
        };
        if count == 0 {
            return Ok(());
        }
        append(input, &buffer[..count])?;
        if input.len() > limit {
            return Err(InputFault::TooLong);
        }
    }
    Err(InputFault::TooLong)
}

//! The buffer of a remote memory buffer (RMB), cut into elements of one size (RFC 7609, section 4.2).
//!
//! A landing writes whole runs of bytes at an address and nothing else, whatever element they lie in. It
//! is refused exactly where its range isn't inside the buffer, and then changes nothing. A reader copies
//! out of one element, going round its end. The memory is taken when the region is made, and none later.
#![tactic(auto)]

ghost use Rattle.std.specs.Prelude.{◌≡◌, ◌+◌, ◌<◌, ◌≤◌, ◌↔◌, ◌++◌, length, take, IsOk, IfOk, OnOk, OnErr};
ghost use Rattle.rmb_region.specs.Regions.{fresh, offset, element, lands, round_from, read_round, IsInside};

use smc_num::NoMemory;
use std::alloc::Global;
use std::marker::Model;

pub mod laws;

// From the address of an RMB to that of the next one.
const SPACING: u64 = 4_294_967_296;

/// A landing's range isn't inside the buffer.
#[derive(Clone, Copy, Debug, PartialEq, Eq)]
pub struct OutOfRegion;

/// The buffer of one RMB. Contracts see the RMB's number, how many elements of which size there are,
/// and all bytes in a row.
#[derive(Drop)]
pub struct Region {
    rmb: u8,
    elements: u8,
    size: u32,
    bytes: Vec<u8>,
}

impl Model for Region {
    ghost use Rattle.rmb_region.specs.Regions.{Buffer, IsWhole};

    ghost Value = { Buffer };

    ghost view = { λ r. record { rmb = r.rmb; elements = r.elements; size = r.size; bytes = r.bytes.items } };

    ghost invariant = { λ r. IsWhole (record { rmb = r.rmb; elements = r.elements; size = r.size; bytes = r.bytes.items }) };
}

impl Region {
    /// The buffer of the RMB with this number, of so many elements of `size` bytes, all 0.
    pub fn new(alloc: Global, rmb: u8, elements: u8, size: u32) -> Result<Region, NoMemory>
        requires { 1 ≤ size }
        ensures { IfOk result (λ region. region ≡ fresh rmb elements size) }
    {
        let len = elements as usize * size as usize;
        let bytes = vec![in alloc; 0; len].map_err(|_| NoMemory)?;
        Ok(Region {
            rmb,
            elements,
            size,
            bytes,
        })
    }

    /// Writes `front` at the address, and `back` right behind it. The RMB's address is `rmb * 2^32`.
    pub fn land(&mut self, address: u64, front: &[u8], back: &[u8]) -> Result<(), OutOfRegion>
        ensures inside { IsOk result ↔ IsInside address (length front.now + length back.now) self.old }
        ensures ok { OnOk result (self.new ≡ lands address (front.now ++ back.now) self.old) }
        ensures err { OnErr result (self.new ≡ self.old) }
    {
        let len = front.len() + back.len();
        let start = self.offset(address, len)?;
        copy_both(&mut self.bytes[start..start + len], front, back);
        Ok(())
    }

    /// Fills `out` with the bytes of an element, from 1, that stand at the places from `from` on. The
    /// places are those of a stream that goes round and round the element.
    pub fn copy_out(&self, element: u8, from: u32, out: &mut [u8])
        requires element { (1 ≤ element) × (element ≤ self.now.elements) }
        requires len { length out.old ≤ self.now.size }
        ensures { out.new ≡ read_round element from (length out.old) self.now }
    {
        let from = (from % self.size) as usize;
        copy_round(self.element(element), from, out);
    }

    // Where in the buffer so many bytes at an address begin.
    fn offset(&self, address: u64, len: usize) -> Result<usize, OutOfRegion>
        ensures inside { IsOk result ↔ IsInside address len self.now }
        ensures offset { IfOk result (λ start. start ≡ offset address self.now) }
    {
        let base = self.rmb as u64 * SPACING;
        if address < base {
            return Err(OutOfRegion);
        }
        let start = (address - base) as usize;
        if start > self.bytes.len() || len > self.bytes.len() - start {
            return Err(OutOfRegion);
        }
        Ok(start)
    }

    // The bytes of an element.
    fn element(&self, index: u8) -> &[u8]
        requires { (1 ≤ index) × (index ≤ self.now.elements) }
        ensures bytes { result.now ≡ element index self.now }
        ensures size { length result.now ≡ self.now.size }
    {
        let size = self.size as usize;
        let start = (index as usize - 1) * size;
        &self.bytes[start..start + size]
    }
}

// Fills a run with two parts in a row.
fn copy_both(run: &mut [u8], front: &[u8], back: &[u8])
    requires { length run.old ≡ length front.now + length back.now }
    ensures { run.new ≡ front.now ++ back.now }
{
    let (head, tail) = run.split_at_mut(front.len());
    head.copy_from_slice(front);
    tail.copy_from_slice(back);
}

// Fills `out` with the bytes from a place on, and round the end of the slice.
fn copy_round(bytes: &[u8], from: usize, out: &mut [u8])
    requires from { from < length bytes.now }
    requires len { length out.old ≤ length bytes.now }
    ensures { out.new ≡ take (length out.old) (round_from from bytes.now) }
{
    let (before, behind) = bytes.split_at(from);
    let ahead = behind.len().min(out.len());
    let (head, tail) = out.split_at_mut(ahead);
    head.copy_from_slice(&behind[..ahead]);
    let rest = tail.len();
    tail.copy_from_slice(&before[..rest]);
}

#[cfg(test)]
mod tests {
    use super::*;

    const SIZE: u32 = 16_384;

    #[test]
    fn bytes_land_by_address_alone(rt: HostRuntime) {
        let Ok(mut region) = Region::new(rt.alloc(), 1, 2, SIZE) else {
            assert!(rt; false, "no memory");
            return;
        };
        for (address, answer) in [
            (4_294_983_679, Ok(())),
            (4_295_000_062, Ok(())),
            (4_295_000_063, Err(OutOfRegion)),
            (4_294_967_295, Err(OutOfRegion)),
        ] {
            assert_eq!(rt;
                region.land(address, &[0xaa], &[0xbb]),
                answer,
                "at {address}"
            );
        }
        for (element, from, bytes) in [
            (1, 16_383, [0xaa, 0, 0]),
            (1, 16_382 + SIZE, [0, 0xaa, 0]),
            (2, 0, [0xbb, 0, 0]),
            (2, 16_382, [0xaa, 0xbb, 0xbb]),
        ] {
            assert!(rt; 1 <= element && element <= region.elements && 3 <= region.size);
            let mut out = [1; 3];
            region.copy_out(element, from, &mut out);
            assert_eq!(rt; out, bytes, "element {element} from {from}");
        }
    }
}

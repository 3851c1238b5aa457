//! Laws of the definitions in `specs/` that the crates above cite. Each is a function with nothing
//! to do, whose contract is the law.

ghost use Rattle.std.specs.Prelude.{◌≡◌, ℕ, ◌+◌, ◌-◌, ◌<◌, ◌≤◌, ◌⊎◌, List, length, slice_index_or};
ghost use Rattle.smc_num.specs.Places.{address_of, rmb_address};
ghost use Rattle.rmb_region.specs.Regions.{Buffer, IsWhole, IsInside, fresh, lands, byte_at, place, read_round};

/// A new buffer has all its bytes.
pub fn a_new_buffer_is_whole()
    ensures { (rmb elements size : ℕ) → 0 < size → IsWhole (fresh rmb elements size) }
{}

/// After a landing the buffer still has all its bytes.
pub fn a_landing_keeps_the_buffer_whole()
    ensures { (b : Buffer) (address : ℕ) (bytes : List ℕ) → IsWhole b → IsInside address (length bytes) b
        → IsWhole (lands address bytes b) }
{}

/// What landed stands at the addresses of the landing.
pub fn a_landing_writes_its_range()
    ensures { (b : Buffer) (address : ℕ) (bytes : List ℕ) (k : ℕ) → IsWhole b → IsInside address (length bytes) b
        → k < length bytes → byte_at (address + k) (lands address bytes b) ≡ slice_index_or bytes k 0 }
{}

/// At all other addresses of the RMB stands what stood there.
pub fn a_landing_leaves_all_else()
    ensures { (b : Buffer) (address : ℕ) (bytes : List ℕ) (at : ℕ) → IsWhole b → IsInside address (length bytes) b
        → rmb_address b.rmb ≤ at → (at < address) ⊎ (address + length bytes ≤ at)
        → byte_at at (lands address bytes b) ≡ byte_at at b }
{}

/// A reader finds each byte of a stream at the stream's address for it.
pub fn a_reader_finds_each_byte_at_its_address()
    ensures { (b : Buffer) (index from len k : ℕ) → IsWhole b → 1 ≤ index → index ≤ b.elements → len ≤ b.size → k < len
        → slice_index_or (read_round index from len b) k 0 ≡ byte_at (address_of b.size (place b index) (from + k)) b }
{}

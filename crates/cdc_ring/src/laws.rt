//! Laws of the definitions in `specs/` that the crates above cite. Each is a function with nothing
//! to do, whose contract is the law.

ghost use Rattle.std.specs.Prelude.{◌≡◌, ℕ, ◌≤◌, List, [], ◌∷◌, ◌++◌, length};
ghost use Rattle.cdc_ring.specs.Rings.{Ring, IsSound, accepted, last_from, last_posted, posts, completes};
ghost use Rattle.cdc_ring.specs.Kept.{Kept, Represents};
ghost use Rattle.cdc_ring.specs.Flights.{Climbs, rising};

/// What a value stands for is a sound ring.
pub fn a_ring_is_sound()
    ensures { (kept : Kept) (ring : Ring) → Represents kept ring → IsSound ring }
{}

/// A value keeps as many marks as there are postings.
pub fn a_mark_is_kept_for_each_posting()
    ensures { (kept : Kept) (ring : Ring) → Represents kept ring → length kept.marks ≡ length ring.posted }
{}

/// After a posting nothing is unposted.
pub fn posting_leaves_nothing_unposted()
    ensures { (ring : Ring) → IsSound ring → last_posted (posts ring) ≡ accepted ring }
{}

/// What was posted stays posted where bytes of it complete.
pub fn completing_unposts_nothing()
    ensures { (ring : Ring) (place : ℕ) → IsSound ring → ring.completed ≤ place → place ≤ last_posted ring
        → last_posted (completes place ring) ≡ last_posted ring }
{}

/// The ring is posted as far as the last snapshot under way tells.
pub fn the_last_snapshot_tells_the_last_posted_byte()
    ensures { (ring : Ring) (tolds : List ℕ) → Climbs ring.completed tolds → ring.posted ≡ rising ring.completed tolds
        → last_posted ring ≡ last_from ring.completed tolds }
{}

/// A snapshot more that tells all accepted bytes is a posting.
pub fn a_snapshot_more_is_a_posting()
    ensures { (ring : Ring) (tolds : List ℕ) → IsSound ring → Climbs ring.completed tolds
        → ring.posted ≡ rising ring.completed tolds
        → (posts ring).posted ≡ rising ring.completed (tolds ++ accepted ring ∷ []) }
{}

/// A snapshot that tells what the last one told is no posting.
pub fn a_snapshot_without_bytes_is_no_posting()
    ensures { (from : ℕ) (tolds : List ℕ) → Climbs from tolds
        → rising from (tolds ++ last_from from tolds ∷ []) ≡ rising from tolds }
{}

/// Where the oldest snapshot completes, its posting goes and all others stay.
pub fn the_oldest_posting_goes()
    ensures { (ring : Ring) (told : ℕ) (tolds : List ℕ) → ring.completed ≤ told
        → ring.posted ≡ rising ring.completed (told ∷ tolds) → (completes told ring).posted ≡ rising told tolds }
{}

/// No more postings are kept than snapshots are under way.
pub fn postings_are_no_more_than_snapshots()
    ensures { (from : ℕ) (tolds : List ℕ) → length (rising from tolds) ≤ length tolds }
{}

//! What holds of the two ends of a connection, whatever their applications, the links and the other
//! connections do. Each law is a function with nothing to do, whose contract is the law.

ghost use Rattle.std.specs.Prelude.{◌≡◌, ℕ, ◌+◌, ◌-◌, ◌<◌, ◌≤◌, true, false, List, ◌∷◌, length, Some};
ghost use Rattle.smc_num.specs.declared.Side.{Side as Peer};
ghost use Rattle.smc_num.specs.declared.Side.TheVariants.{A, B};
ghost use Rattle.smc_num.specs.Names.{other, head};
ghost use Rattle.smc_num.specs.Numbers.{wire_number};
ghost use Rattle.cdc_wire.specs.declared.CdcMessage.{CdcMessage as Message};
ghost use Rattle.pipe_model.specs.declared.snapshot.Snapshot.{Snapshot as Shot};
ghost use Rattle.pipe_model.specs.Snapshot.{Spells, shows_gap, is_near};
ghost use Rattle.pipe_model.specs.Spelling.{IsWithin, number_from, read_snapshot};
ghost use Rattle.pipe_model.specs.Ends.{Sent, is_over, to_land, to_complete};
ghost use Rattle.pipe_model.specs.Pipe.{Terms, Item, Lands, half, pipe, is_near_part};
ghost use Rattle.pipe_model.specs.Parts.{IsFeasible, HasToldLast, has_swallow, covered, is_shut, EachOf, IsCounted, IsMarked, IsFlying, IsSettled, MayTake, ClosesBehindAll, ReadsTold, CarriesFew, EndsWithLast, HasAllTold, GoesOn};

/// What an end told, what of it has completed, what its peer took and read, and the window fit
/// together.
pub fn counts_fit()
    ensures { (t : Terms) (x : Peer) (items : List Item) → IsFeasible t items
        → IsCounted t.size (half x (pipe t items)) (half (other x) (pipe t items)) }
{}

/// No message completes before it has landed or was swallowed, and none lands that was not sent.
pub fn marks_fit()
    ensures { (t : Terms) (x : Peer) (items : List Item) → IsFeasible t items → IsMarked (half x (pipe t items)) }
{}

/// The flight of an end is its snapshots that have not completed, in order, at most as many as it
/// may have; their numbers rise by one, and none tells or reads less than the one before it.
pub fn the_flight_is_what_has_not_completed()
    ensures { (t : Terms) (x : Peer) (items : List Item) → IsFeasible t items
        → IsFlying t.depth (half x (pipe t items)) }
{}

/// After each item of a part, whether it can be or not, nothing is due.
pub fn nothing_is_due()
    ensures { (t : Terms) (x : Peer) (items : List Item) → IsSettled t.depth (half x (pipe t items)) }
{}

/// An end tells that it has closed only once all bytes that it accepted have completed.
pub fn closed_is_told_behind_all_bytes()
    ensures { (t : Terms) (x : Peer) (items : List Item) → IsFeasible t items → ClosesBehindAll (half x (pipe t items)) }
{}

/// An end that is neither reset nor closing has read no more than its peer told it.
pub fn reads_stay_behind_what_was_told()
    ensures { (t : Terms) (x : Peer) (items : List Item) → IsFeasible t items → ReadsTold (half x (pipe t items)) }
{}

/// The peer may take the snapshot of an end that is next to land.
pub fn the_next_snapshot_may_be_taken()
    ensures { (t : Terms) (x : Peer) (items : List Item) (m : Sent) → IsFeasible t items
        → head (to_land (half x (pipe t items))) ≡ Some m → m.check ≡ false
        → MayTake t.size m.snapshot (half (other x) (pipe t items)) }
{}

/// A snapshot that is next to complete is the oldest of the flight.
pub fn the_oldest_snapshot_completes()
    ensures { (t : Terms) (x : Peer) (items : List Item) (m : Sent) → IsFeasible t items
        → head (to_complete (half x (pipe t items))) ≡ Some m → m.check ≡ false
        → head (half x (pipe t items)).flight ≡ Some m.snapshot }
{}

/// Each message of an end carries bytes of those that the end accepted, no more than an element
/// holds, and none where it is a validation message or tells that the end was reset.
pub fn messages_carry_few_bytes()
    ensures { (t : Terms) (x : Peer) (items : List Item) → IsFeasible t items
        → EachOf (CarriesFew t.size (length (half x (pipe t items)).out)) (half x (pipe t items)).sent }
{}

/// Once an end has taken the last snapshot of its peer, no message under way to it carries bytes.
pub fn no_bytes_follow_the_last_snapshot()
    ensures { (t : Terms) (x : Peer) (items : List Item) → IsFeasible t items
        → EndsWithLast (half x (pipe t items)) (half (other x) (pipe t items)) }
{}

/// An end that is over is reset or closing.
pub fn an_end_that_is_over_is_shut()
    ensures { (t : Terms) (x : Peer) (items : List Item) → IsFeasible t items
        → is_over (half x (pipe t items)) ≡ true → is_shut (half x (pipe t items)).phase ≡ true }
{}

/// An end that is over has told its last snapshot, and so has its peer.
pub fn ends_that_are_over_have_told_their_last()
    ensures { (t : Terms) (x : Peer) (items : List Item) → IsFeasible t items
        → is_over (half x (pipe t items)) ≡ true
        → HasToldLast (half x (pipe t items)) × HasToldLast (half (other x) (pipe t items)) }
{}

/// A part in which no message was swallowed is near.
pub fn parts_without_swallows_are_near()
    ensures { (t : Terms) (items : List Item) → IsFeasible t items → has_swallow t items ≡ false
        → is_near_part t items ≡ true }
{}

/// A part in which neither end has posted 32,768 snapshots is near.
pub fn parts_of_few_snapshots_are_near()
    ensures { (t : Terms) (items : List Item) → IsFeasible t items
        → (half A (pipe t items)).number < (t.number - 1) + 32_768
        → (half B (pipe t items)).number < (t.number - 1) + 32_768 → is_near_part t items ≡ true }
{}

/// A validation message that is near and shows no gap names a number that its taker has taken.
pub fn what_shows_no_gap_was_taken()
    ensures { (told taken : ℕ) → is_near told taken ≡ true → shows_gap told taken ≡ false → told ≤ taken }
{}

/// Where all validation messages were near, the bytes that an end was told have landed without a
/// hole, unless the end is reset or closing.
pub fn told_bytes_have_landed()
    ensures { (t : Terms) (x : Peer) (items : List Item) → IsFeasible t items → is_near_part t items ≡ true
        → HasAllTold (covered t x items) (half (other x) (pipe t items)) }
{}

/// Where all validation messages were near, the bytes of a snapshot that can land next go on where
/// those that its taker was told end, or begin among them, unless the taker is reset or closing.
pub fn the_next_bytes_go_on()
    ensures { (t : Terms) (x : Peer) (items : List Item) (m : Sent) → IsFeasible t (Lands x ∷ items)
        → is_near_part t items ≡ true → head (to_land (half x (pipe t items))) ≡ Some m → m.check ≡ false
        → GoesOn m (half (other x) (pipe t items)) }
{}

/// A message that spells a snapshot is read back as it by an end that has taken one within the
/// distances, all but its number, of which 16 bits are told; and whole where the number has moved on
/// by less than these need to come round.
pub fn reads_back()
    ensures counts { (size : ℕ) (m : Message) (taken s : Shot) → 0 < size → Spells size m s → IsWithin size taken s
        → read_snapshot size taken m ≡ record s { number = number_from taken.number m.number } }
    ensures number { (size : ℕ) (m : Message) (taken s : Shot) → Spells size m s
        → wire_number (read_snapshot size taken m).number ≡ wire_number s.number }
    ensures whole { (size : ℕ) (m : Message) (taken s : Shot) → 0 < size → Spells size m s → IsWithin size taken s
        → taken.number ≤ s.number → s.number < taken.number + 65_536 → read_snapshot size taken m ≡ s }
{}

/// A snapshot that is next to land is within the distances from what its taker has taken, unless the
/// taker has taken that its peer was reset.
pub fn the_next_snapshot_is_within_the_distances()
    ensures { (t : Terms) (x : Peer) (items : List Item) (m : Sent) → 0 < t.size → IsFeasible t items
        → head (to_land (half x (pipe t items))) ≡ Some m → m.check ≡ false
        → (half (other x) (pipe t items)).taken.aborted ≡ false
        → IsWithin t.size (half (other x) (pipe t items)).taken m.snapshot }
{}

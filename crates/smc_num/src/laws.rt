//! Laws of the definitions in `specs/` that the crates above cite. Each is a function with nothing
//! to do, whose contract is the law.

ghost use Rattle.std.specs.Prelude.{◌≡◌, ℕ, ◌+◌, ◌*◌, ◌≤◌, ◌<◌, ◌==◌, Bool, false, if◌then◌else◌, List, Some, filter, length, option_map};
ghost use Rattle.smc_num.specs.declared.Cursor.{Cursor};
ghost use Rattle.smc_num.specs.declared.LinkId.{LinkId as Link};
ghost use Rattle.smc_num.specs.declared.LinkPhase.{LinkPhase as Phase};
ghost use Rattle.smc_num.specs.Numbers.{wire_number, cursor_of, past_by};
ghost use Rattle.smc_num.specs.Names.{head};
ghost use Rattle.smc_num.specs.Links.{Known, at_slot, put, with_phase, set_phase, first_live, live_links};
ghost use Rattle.smc_num.specs.Keys.{Key, is_for, is_bound, bound, binds, lowest_unused, IsLowestUnused, rmb_bound, rmbs_bound, AreBoundApart, IsInRange, AreInRange};

/// How far numbers are apart on the circle shows in their 16 bits.
pub fn wire_numbers_show_the_distance()
    ensures { (n m : ℕ) → past_by (wire_number n) (wire_number m) ≡ past_by n m }
{}

/// Every cursor with a count below the size stands for a place.
pub fn a_cursor_stands_for_a_place()
    ensures { (size : ℕ) (cursor : Cursor) → cursor.wrap < 65_536 → cursor.count < size
        → cursor ≡ cursor_of size (cursor.wrap * size + cursor.count) }
{}

/// A cursor tells places apart that are less than 65,536 elements apart.
pub fn cursors_tell_places_apart()
    ensures { (size from to : ℕ) → from ≤ to → to < from + 65_536 * size
        → cursor_of size from ≡ cursor_of size to → from ≡ to }
{}

/// After a link was put in a table, its slot has it, and every other slot what it had.
pub fn a_link_is_put_on_its_slot()
    ensures { (new : Known) (k : ℕ) (table : List Known)
        → at_slot k (put new table) ≡ (if new.link.slot == k then Some new else at_slot k table) }
{}

/// After a slot got a phase, its link has it, and every other link what it had.
pub fn a_phase_is_set_on_one_slot()
    ensures { (j k : ℕ) (phase : Phase) (table : List Known)
        → at_slot k (set_phase j phase table) ≡ option_map (with_phase j phase) (at_slot k table) }
{}

/// The lowest live link is the first of the live ones.
pub fn the_first_live_link_is_the_lowest()
    ensures { (table : List Known) → first_live table ≡ head (live_links table) }
{}

/// There is always a lowest unused number.
pub fn a_number_is_always_unused()
    ensures { (base : ℕ) (keys : List Key) → IsLowestUnused base keys (lowest_unused base keys) }
{}

/// A key that was bound is the one of its RMB and link.
pub fn a_key_is_bound()
    ensures { (new : Key) (keys : List Key) → bound new.rmb new.link (binds new keys) ≡ Some new.key }
{}

/// Binding a key changes nothing for other RMBs, nor for other slots.
pub fn other_keys_stay_bound()
    ensures { (new : Key) (rmb : ℕ) (link : Link) (keys : List Key)
        → is_for rmb link.slot new ≡ false → bound rmb link (binds new keys) ≡ bound rmb link keys }
{}

/// The RMB of a number on a link is the first of those to which it is bound there.
pub fn the_bound_rmb_is_the_first()
    ensures { (key : ℕ) (link : Link) (keys : List Key)
        → rmb_bound key link keys ≡ head (rmbs_bound key link keys) }
{}

/// Keys of some RMBs and slots stay such when one more of these is bound, and when some go.
pub fn keys_stay_in_range()
    ensures bound { (rmbs links : ℕ) (new : Key) (keys : List Key) → AreInRange rmbs links keys → IsInRange rmbs links new.rmb new.link.slot
        → AreInRange rmbs links (binds new keys) }
    ensures gone { (rmbs links : ℕ) (test : Key → Bool) (keys : List Key) → AreInRange rmbs links keys → AreInRange rmbs links (filter test keys) }
{}

/// There are no more keys than RMBs on slots, where no two are for one of these.
pub fn keys_are_no_more_than_rmbs_on_slots()
    ensures { (rmbs links : ℕ) (keys : List Key) → AreBoundApart keys → AreInRange rmbs links keys → length keys ≤ rmbs * links }
{}

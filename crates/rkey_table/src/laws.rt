//! What a full table is. A law is a function with nothing to do, whose contract is the law.

ghost use Rattle.std.specs.Prelude.{◌≡◌, ℕ, ◌*◌, ◌≤◌, length, IsNone};
ghost use Rattle.smc_num.specs.Keys.{key_for_slot, AreBoundApart, IsInRange, AreInRange};
ghost use Rattle.rkey_table.specs.Tables.{Table, AllUsed, IsTable};

/// A table whose numbers are all in use has at least as many keys as numbers.
pub fn a_full_table_has_a_key_for_each_number()
    ensures { (t : Table) → AllUsed t → t.places ≤ length t.keys }
{}

/// No table has more keys than numbers.
pub fn a_table_has_at_most_a_key_for_each_number()
    ensures { (t : Table) → IsTable t → length t.keys ≤ t.places }
{}

/// Of a table an RMB has at most one number for a slot.
pub fn an_rmb_has_at_most_one_number_for_a_slot()
    ensures { (t : Table) → IsTable t → AreBoundApart t.keys }
{}

/// A table that has numbers for all RMBs on all slots refuses none of them.
pub fn numbers_for_all_are_enough()
    ensures { (rmbs links rmb slot : ℕ) (t : Table) → IsTable t → AreInRange rmbs links t.keys → rmbs * links ≤ t.places → IsInRange rmbs links rmb slot
        → AllUsed t → IsNone (key_for_slot rmb slot t.keys) → ⊥ }
{}

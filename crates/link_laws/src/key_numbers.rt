//! The numbers of the keys of a side.
ghost use Rattle.link_laws.specs.KeyChanges.{AreKeys};
ghost use Rattle.link_laws.specs.KeyRange.{AllOwedByRange, AreIn};
ghost use Rattle.pipe_model.specs.Keys.{keys_of};
ghost use Rattle.pipe_model.specs.declared.entry.Entry.{Entry};
ghost use Rattle.smc_num.specs.Keys.{key_base};
ghost use Rattle.smc_num.specs.declared.Side.{Side};
ghost use Rattle.std.specs.Prelude.{List, ℕ};

/// No number and no RMB and slot stand twice among a side's keys, after any list of entries.
pub fn keys_are_apart()
    ensures { (x : Side) (past : List Entry) → AreKeys (key_base x) (keys_of x past).keys }
{}

/// The numbers of a side's keys lie in its range, where what it registers is of its RMBs and slots.
pub fn keys_are_in_range()
    ensures { (rmbs links : ℕ) (x : Side) (past : List Entry) → AllOwedByRange rmbs links x past → AreIn (key_base x) rmbs links (keys_of x past).keys }
{}

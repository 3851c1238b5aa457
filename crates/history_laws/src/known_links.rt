//! What the tables of links are like after every list of entries.
ghost use Rattle.history_laws.specs.Tables.{Rises};
ghost use Rattle.pipe_model.specs.Fabric.{table_of};
ghost use Rattle.pipe_model.specs.declared.entry.Entry.{Entry};
ghost use Rattle.smc_num.specs.declared.Side.{Side};
ghost use Rattle.std.specs.Prelude.{List};

/// The links that a side knows have rising slots: no two are of one slot.
pub fn known_links_rise()
    ensures { (x : Side) (past : List Entry) → Rises 0 (table_of x past) }
{}

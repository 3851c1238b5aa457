//! What becomes of a link that has stood.
ghost use Rattle.history_laws.specs.Made.{IsMadeAll};
ghost use Rattle.link_laws.specs.Lasting.{has_stood, is_lost};
ghost use Rattle.pipe_model.specs.Fabric.{table_of};
ghost use Rattle.pipe_model.specs.declared.entry.Entry.{Entry};
ghost use Rattle.pipe_model.specs.declared.setup.Setup.{Setup};
ghost use Rattle.smc_num.specs.Links.{stands};
ghost use Rattle.smc_num.specs.declared.LinkId.{LinkId};
ghost use Rattle.smc_num.specs.declared.Side.{Side};
ghost use Rattle.std.specs.Prelude.{List, false, true, ℕ, ◌≡◌, ◌⊎◌};

/// Each link that ever stood at a side stands at a side and was not lost there, or was lost there
/// and stands no more.
pub fn a_link_stands_or_was_lost()
    ensures { (setup : Setup) (payload : List ℕ) (past : List Entry) → IsMadeAll setup payload past → (x : Side) (link : LinkId) → has_stood link past ≡ true → ((stands link (table_of x past) ≡ true) × (is_lost x link past ≡ false)) ⊎ ((stands link (table_of x past) ≡ false) × (is_lost x link past ≡ true)) }
{}

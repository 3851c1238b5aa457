//! Where the posts of a history stand.
ghost use Rattle.history_laws.specs.Wires.{EachPlaced, IsPlaced};
ghost use Rattle.pipe_model.specs.Wires.{uncompleted, unlanded};
ghost use Rattle.pipe_model.specs.declared.entry.Entry.{Entry};
ghost use Rattle.smc_num.specs.declared.LinkId.{LinkId};
ghost use Rattle.smc_num.specs.declared.Side.{Side};
ghost use Rattle.std.specs.Prelude.{List};

/// What waits on a link, to land or to complete, stands in the history at its place.
pub fn waiting_posts_stand_at_their_places()
    ensures { (link : LinkId) (x : Side) (past : List Entry) → EachPlaced (IsPlaced past) (unlanded link x past) × EachPlaced (IsPlaced past) (uncompleted link x past) }
{}

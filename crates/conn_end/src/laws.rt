//! Laws of the definitions in `specs/` that the crates above cite. Each is a function with nothing to
//! do, whose contract is the law.

ghost use Rattle.std.specs.Prelude.{◌≡◌, ℕ, List};
ghost use Rattle.smc_num.specs.declared.LinkId.{LinkId as Link};
ghost use Rattle.smc_num.specs.declared.LinkPhase.{LinkPhase as LinkStage};
ghost use Rattle.pipe_model.specs.declared.snapshot.Snapshot.{Snapshot as State};
ghost use Rattle.pipe_model.specs.Closing.{cause_of};
ghost use Rattle.pipe_model.specs.Ends.{Half, comes_up, meets_fate, lands};
ghost use Rattle.pipe_model.specs.Calls.{Reads, Awaits, Plain, half_told};
ghost use Rattle.conn_end.specs.declared.answers.EndReply.{EndReply as Answer};
ghost use Rattle.pipe_model.specs.Parts.{MayTake};
ghost use Rattle.conn_end.specs.Arrivals.{IsTakable};
ghost use Rattle.conn_end.specs.Kept.{Kept, IsKept, Represents};
ghost use Rattle.conn_end.specs.Told.{Answers, awaited};

/// Whatever an end keeps stands for some plain end.
pub fn each_end_stands_for_a_plain_one()
    ensures { (k : Kept) → IsKept k → (h : Half) × Represents k h }
{}

/// Its establishment, its links and the landing of its messages change nothing that an end keeps.
pub fn its_links_are_its_owners()
    ensures up { (k : Kept) (h : Half) (link : Link) → Represents k h → Represents k (comes_up link h) }
    ensures fate { (k : Kept) (h : Half) (link : Link) (stage : LinkStage) → Represents k h → Represents k (meets_fate link stage h) }
    ensures landing { (k : Kept) (h : Half) → Represents k h → Represents k (lands h) }
{}

/// An await is told by what a read of one byte would be told.
pub fn an_await_is_told_by_a_read()
    ensures { (size : ℕ) (h : Half) (reply : Answer) (peer_out : List ℕ) → Answers size (Reads 1) h reply
        → half_told size Awaits h peer_out (cause_of h.phase) ≡ Plain (awaited reply) }
{}

/// What lands in the pipe an end may take.
pub fn what_lands_may_be_taken()
    ensures { (size : ℕ) (s : State) (h : Half) → MayTake size s h → IsTakable size s h }
{}

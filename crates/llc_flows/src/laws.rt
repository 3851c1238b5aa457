//! What holds a request back is what an event of a history is told. A law is a function with nothing
//! to do, whose contract is the law.

ghost use Rattle.std.specs.Prelude.{◌≡◌, ◌==◌, not, Bool, if◌then◌else◌, List, ℕ, None};
ghost use Rattle.smc_num.specs.declared.Side.{Side as Peer};
ghost use Rattle.smc_num.specs.declared.Side.TheVariants.{A, B};
ghost use Rattle.smc_num.specs.Names.{head};
ghost use Rattle.smc_num.specs.Links.{is_live, phase_at};
ghost use Rattle.clc_wire.specs.declared.proposal.Proposal.{Proposal};
ghost use Rattle.clc_wire.specs.declared.offer.Offer.{Offer};
ghost use Rattle.pipe_model.specs.declared.entry.Entry.{Entry};
ghost use Rattle.pipe_model.specs.declared.reply.Reply.TheVariants.{Idle, Sent};
ghost use Rattle.pipe_model.specs.declared.reply.SentKind.TheVariants.{DeleteRkey as DeleteSent, TestLink as TestSent};
ghost use Rattle.pipe_model.specs.declared.setup.Setup.{Setup};
ghost use Rattle.pipe_model.specs.declared.verdict.Lacks.{Lacks};
ghost use Rattle.pipe_model.specs.declared.verdict.ClcStep.TheVariants.{AskKey};
ghost use Rattle.pipe_model.specs.Words.{is_nil};
ghost use Rattle.pipe_model.specs.Fabric.{flow_of, group_of, table_of};
ghost use Rattle.pipe_model.specs.Flows.{Flow};
ghost use Rattle.pipe_model.specs.Handshake.{on_accept, on_proposal};
ghost use Rattle.pipe_model.specs.Posts.{trimmed};
ghost use Rattle.pipe_model.specs.Replies.{grow_to, grow_told, open_slots, test_told, trim_told};
ghost use Rattle.llc_flows.specs.Holds.{TellsFlow, add_hold, confirm_hold, delete_hold, test_hold, unless_held};

/// An ADD LINK is held back where Grow is told so.
pub fn grow_is_held_as_told()
    ensures { (setup : Setup) (past : List Entry) → grow_told setup past
        ≡ (if group_of B past == 0 then Idle else unless_held (add_hold (flow_of B past)) (grow_to (head (open_slots setup past)))) }
{}

/// A DELETE RKEY is held back where Trim is told so.
pub fn trim_is_held_as_told()
    ensures { (setup : Setup) (payload : List ℕ) (x : Peer) (past : List Entry) → trim_told setup payload x past
        ≡ (if group_of x past == 0 then Idle else unless_held (delete_hold (flow_of x past)) (if is_nil (trimmed setup payload x past) then Idle else Sent DeleteSent)) }
{}

/// A TEST LINK is held back where Test is told so.
pub fn test_is_held_as_told()
    ensures { (x : Peer) (slot : ℕ) (past : List Entry) → test_told x slot past
        ≡ (if not (is_live (phase_at slot (table_of x past))) then Idle else unless_held (test_hold slot (flow_of x past)) (Sent TestSent)) }
{}

/// A key for which the handshake asks is not held back.
pub fn a_key_that_is_asked_for_is_not_held()
    ensures server { (raw : Bool) (proposal : Proposal) (facts : Lacks) (f : Flow) → TellsFlow facts f
        → on_proposal raw proposal facts ≡ AskKey → confirm_hold B f ≡ None }
    ensures client { (offer : Offer) (facts : Lacks) (f : Flow) → TellsFlow facts f
        → on_accept offer facts ≡ AskKey → confirm_hold A f ≡ None }
{}

//! What follows from the definitions of a lawful history alone, each as the contract of a function
//! that does nothing.
ghost use Rattle.std.specs.Prelude.{◌≡◌, ◌∷◌, ◌++◌, true, List, ℕ, Some};
ghost use Rattle.smc_num.specs.declared.Side.{Side as Peer};
ghost use Rattle.pipe_model.specs.declared.entry.Entry.{Entry};
ghost use Rattle.pipe_model.specs.declared.event.End.{End};
ghost use Rattle.pipe_model.specs.declared.event.Event.{Event};
ghost use Rattle.pipe_model.specs.declared.reply.ResetCause.{ResetCause};
ghost use Rattle.pipe_model.specs.declared.setup.Setup.{Setup};
ghost use Rattle.pipe_model.specs.Calls.{Call};
ghost use Rattle.pipe_model.specs.Closing.{cause_of};
ghost use Rattle.pipe_model.specs.Pipe.{Terms, Item, half, pipe, told, is_near_part};
ghost use Rattle.pipe_model.specs.Connections.{IsUp, group_on, end_state};
ghost use Rattle.pipe_model.specs.Lending.{terms_of, pipe_of};
ghost use Rattle.pipe_model.specs.Replies.{call_told, told as told_by};
ghost use Rattle.pipe_model.specs.Causes.{DeclinesForLack, StaySettled, kept_cause};
ghost use Rattle.pipe_model.specs.Lawful.{IsLawful, IsLawfulAfter, TwoWorlds, answers, claims, reply_of};

/// Each entry of a lawful history is a lawful step after the entries before it, which are lawful, with
/// the bytes that these handed out.
pub fn each_entry_is_a_lawful_step()
    ensures { (setup : Setup) (payload : List ℕ) (earlier : List Entry) (e : Entry) (later : List Entry) (heard : List ℕ)
        → IsLawful setup payload (earlier ++ e ∷ later) heard → IsLawfulAfter setup payload earlier e heard }
{}

/// A call on an established end is told what its private pipe gives, a function of its connection's
/// part of the history.
pub fn calls_are_told_by_the_pipe()
    ensures { (setup : Setup) (payload : List ℕ) (end : End) (call : Call) (past : List Entry) → end_state end.side end.s past ≡ IsUp
        → call_told setup payload end call past ≡ told (terms_of setup) end.side call (pipe_of setup payload (group_on end.s past) end.s past) }
{}

/// The law of two worlds: where two connections, in any two histories, have equal terms and equal
/// parts, their calls are told the same, whatever else happened in the two worlds.
pub fn equal_parts_are_told_the_same()
    ensures { (t u : Setup) (p q : List ℕ) (s r : ℕ) (past past2 : List Entry) → TwoWorlds t u p q s r past past2 }
{}

/// Of a near part all is claimed that its calls are told, bytes as well.
pub fn near_parts_are_claimed_whole()
    ensures { (t : Terms) (items : List Item) → is_near_part t items ≡ true → claims t items ≡ answers t items }
{}

/// Over every list of entries, what is declined is declined for the named lack, which holds then.
pub fn a_lack_is_named_only_where_it_holds()
    ensures { (setup : Setup) (payload : List ℕ) (past : List Entry) (event : Event) (n : ℕ)
        → DeclinesForLack setup payload event (reply_of n (told_by setup payload past event)) past }
{}

/// Over every list of news, an end of a private pipe that is reset keeps its cause. After an entry with
/// the due reply an end of a socket does so, where the ends that are up, have fallen back or were reset
/// stay what they are.
pub fn a_kept_cause_stays()
    ensures pipe { (t : Terms) (x : Peer) (item : Item) (items : List Item) (cause : ResetCause)
        → cause_of (half x (pipe t items)).phase ≡ Some cause → cause_of (half x (pipe t (item ∷ items))).phase ≡ Some cause }
    ensures kept { (setup : Setup) (payload : List ℕ) (x : Peer) (s : ℕ) (e : Entry) (past : List Entry) (n : ℕ) (cause : ResetCause)
        → StaySettled s e past → e.reply ≡ reply_of n (told_by setup payload past e.event)
        → kept_cause setup payload x s past ≡ Some cause → kept_cause setup payload x s (e ∷ past) ≡ Some cause }
{}

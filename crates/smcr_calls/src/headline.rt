//! The headline, one function a row of the README's table. Each restates a law of the crates below,
//! of every history that a world of this program can make (`IsPlayed`), so that one file says all of
//! it, and the prover keeps the table true.

ghost use Rattle.std.specs.Prelude.{◌≡◌, ℕ, List, ◌∷◌, ◌<◌, ◌≤◌, ◌==◌, Some, false, slice_index_or};
ghost use Rattle.smc_num.specs.declared.Side.{Side as SideT};
ghost use Rattle.smc_num.specs.Names.{other};
ghost use Rattle.smc_num.specs.Places.{address_of};
ghost use Rattle.rmb_region.specs.Regions.{byte_at};
ghost use Rattle.pipe_model.specs.declared.setup.Setup.{Setup as SetupT};
ghost use Rattle.pipe_model.specs.declared.entry.Entry.{Entry as EntryT};
ghost use Rattle.clc_wire.specs.declared.message.ClcMessage.TheVariants.{Accept as AcceptMessage, Proposal as ProposalMessage};
ghost use Rattle.clc_wire.specs.declared.offer.Offer.{Offer};
ghost use Rattle.clc_wire.specs.declared.proposal.Proposal.{Proposal};
ghost use Rattle.pipe_model.specs.declared.reply.Lack.{Lack};
ghost use Rattle.pipe_model.specs.declared.verdict.ClcStep.TheVariants.{SendAccept, SendConfirm};
ghost use Rattle.pipe_model.specs.declared.verdict.Lacks.{Lacks};
ghost use Rattle.pipe_model.specs.declared.reply.Reply.TheVariants.{Declined};
ghost use Rattle.pipe_model.specs.Words.{element_size};
ghost use Rattle.pipe_model.specs.History.{Offered, offered};
ghost use Rattle.pipe_model.specs.Pipe.{half};
ghost use Rattle.pipe_model.specs.Posts.{offered_place};
ghost use Rattle.pipe_model.specs.Connections.{WaitsAnswer, WaitsProposal, group_on, part};
ghost use Rattle.pipe_model.specs.Handshake.{verdict};
ghost use Rattle.pipe_model.specs.Lending.{RelendsOnlyDone, pipe_of, terms_of};
ghost use Rattle.pipe_model.specs.Keys.{AreBound};
ghost use Rattle.pipe_model.specs.Home.{LandsHome};
ghost use Rattle.pipe_model.specs.Causes.{CausesAreShown, IsLacking};
ghost use Rattle.pipe_model.specs.Lawful.{IsLawfulPast, answers_on, was_told};
ghost use Rattle.world_core.specs.Heard.{IsHeard, all_bytes};
ghost use Rattle.world_core.specs.Landed.{buffer_of};
ghost use Rattle.world_core.specs.Played.{IsOneLink, IsPlayed};
ghost use Rattle.smcr_calls.specs.Opens.{CanAccept, CanConfirm};

/// Row 1. What the calls of each connection were told is what its private pipe tells, which knows
/// the connection's own part of the history and nothing else.
pub fn calls_answer_as_their_private_pipes()
    ensures { (setup : SetupT) → IsOneLink setup → (payload : List ℕ) (past : List EntryT) (n : ℕ)
        → IsPlayed setup payload past n → (heard : List ℕ) → heard ≡ all_bytes setup payload past → (s : ℕ)
        → was_told setup payload (group_on s past) s heard past ≡ answers_on setup payload s past }
{
    world_core::calls_were_told_by_their_pipes()
}

/// Row 2. So connections with equal parts were told the same in any two worlds.
pub fn no_connection_hears_of_another()
    ensures { (t u : SetupT) → IsOneLink t → IsOneLink u → (p q : List ℕ) (past past2 : List EntryT) (n m : ℕ)
        → IsPlayed t p past n → IsPlayed u q past2 m → (s r : ℕ) → terms_of t ≡ terms_of u
        → part p (group_on s past) s past ≡ part q (group_on r past2) r past2
        → was_told t p (group_on s past) s (all_bytes t p past) past ≡ was_told u q (group_on r past2) r (all_bytes u q past2) past2 }
{
    world_core::equal_parts_were_told_the_same()
}

/// Row 3. Each byte that an end was told of and has not read stands at its place in the element that
/// the end offered, and is the byte that the peer wrote there.
pub fn told_bytes_are_where_they_were_told()
    ensures { (setup : SetupT) → IsOneLink setup → (payload : List ℕ) (past : List EntryT) (n : ℕ)
        → IsPlayed setup payload past n → (y : SideT) (s : ℕ) (o : Offered) → offered y s past ≡ Some o
        → (k : ℕ) → (half y (pipe_of setup payload (group_on s past) s past)).rd ≤ k
        → k < (half y (pipe_of setup payload (group_on s past) s past)).taken.told
        → byte_at (address_of (element_size setup) (offered_place o.offer) k) (buffer_of setup payload y 1 past)
        ≡ slice_index_or (half (other y) (pipe_of setup payload (group_on s past) s past)).out k 0 }
{
    world_core::told_bytes_stand_in_the_element()
}

/// Row 4. Each write that lands falls inside an element that is lent to its connection.
pub fn writes_land_at_home()
    ensures { (setup : SetupT) → IsOneLink setup → (payload : List ℕ) (e : EntryT) (past : List EntryT) (n : ℕ)
        → IsPlayed setup payload (e ∷ past) n → LandsHome setup payload e.event e.reply past }
{
    world_core::each_write_lands_home()
}

/// Row 5. No element is lent again before both ends of each earlier lending have gone, or its side's
/// group has ended.
pub fn elements_are_lent_again_in_time()
    ensures { (setup : SetupT) → IsOneLink setup → (payload : List ℕ) (e : EntryT) (past : List EntryT) (n : ℕ)
        → IsPlayed setup payload (e ∷ past) n → (x : SideT) → RelendsOnlyDone x e past }
{
    world_core::no_element_is_lent_again_too_early()
}

/// Row 6. No key is bound to another RMB before the lendings that had it are done with.
pub fn keys_are_bound_again_in_time()
    ensures { (setup : SetupT) → IsOneLink setup → (payload : List ℕ) (e : EntryT) (past : List EntryT) (n : ℕ)
        → IsPlayed setup payload (e ∷ past) n → (x : SideT) → AreBound x e past }
{
    world_core::no_key_is_bound_again_too_early()
}

/// Row 7. An open is declined only for a named lack that holds.
pub fn declines_name_what_lacks()
    ensures { (setup : SetupT) (payload : List ℕ) (e : EntryT) (past : List EntryT) (n : ℕ)
        → IsPlayed setup payload (e ∷ past) n → (lack : Lack) → e.reply ≡ Declined lack → IsLacking setup payload e.event past lack }
{
    world_core::a_lack_is_named_only_where_it_holds()
}

/// And it goes through where no side lacks anything, nothing holds it back and no key is to be asked
/// for first: a Proposal is answered by an Accept, and that by a Confirm (RFC 7609, section 3.5).
pub fn opens_go_through()
    ensures accepted { (proposal : Proposal) (facts : Lacks) → CanAccept proposal facts
        → verdict false WaitsProposal (ProposalMessage proposal) facts ≡ SendAccept (facts.group == 0) }
    ensures confirmed { (offer : Offer) (facts : Lacks) → CanConfirm offer facts
        → verdict false WaitsAnswer (AcceptMessage offer) facts ≡ SendConfirm offer.first }
{}

/// Row 8. A connection is reset only for a cause that the history shows.
pub fn resets_have_a_cause()
    ensures { (setup : SetupT) → IsOneLink setup → (payload : List ℕ) (past : List EntryT) (n : ℕ)
        → IsPlayed setup payload past n → CausesAreShown setup payload past }
{
    world_core::no_end_is_reset()
}

/// All rows at once, as the definitions say them: every history is lawful.
pub fn histories_are_lawful()
    ensures { (setup : SetupT) → IsOneLink setup → (payload : List ℕ) (past : List EntryT) (n : ℕ)
        → IsPlayed setup payload past n → (heard : List ℕ) → IsHeard setup payload past heard
        → IsLawfulPast setup payload past heard }
{
    world_core::a_played_history_is_lawful()
}

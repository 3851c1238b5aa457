//! The histories that a world of one link makes are lawful. Each law is a function with nothing to do,
//! whose contract is the law.

ghost use Rattle.std.specs.Prelude.{◌≡◌, ◌⊎◌, ℕ, List, ◌∷◌, length, None, true};
ghost use Rattle.smc_num.specs.declared.Side.{Side as SideT};
ghost use Rattle.pipe_model.specs.declared.setup.Setup.{Setup as SetupT};
ghost use Rattle.pipe_model.specs.declared.entry.Entry.{Entry as EntryT};
ghost use Rattle.pipe_model.specs.declared.event.Event.{Event as EventT};
ghost use Rattle.pipe_model.specs.Keys.{AreBound, keys_of, no_keys};
ghost use Rattle.pipe_model.specs.Lending.{RelendsOnlyDone};
ghost use Rattle.pipe_model.specs.Home.{LandsHome};
ghost use Rattle.pipe_model.specs.Lawful.{IsLawfulPast, claims_bytes};
ghost use Rattle.pipe_model.specs.declared.reply.Lack.{Lack};
ghost use Rattle.pipe_model.specs.declared.reply.Reply.TheVariants.{Declined};
ghost use Rattle.world_core.specs.Heard.{IsHeard, all_bytes};
ghost use Rattle.pipe_model.specs.Causes.{IsLacking, kept_cause, CausesAreShown};
ghost use Rattle.pipe_model.specs.Wires.{unlanded};
ghost use Rattle.world_core.specs.OneLink.{the_link, the_keys};
ghost use Rattle.world_core.specs.WireSteps.{EachPlaced};
ghost use Rattle.world_core.specs.Directed.{IsUnderWay};
ghost use Rattle.world_core.specs.Played.{IsOneLink, IsPlayed};

/// No key is bound again before the lendings of its earlier RMB are done with: a side has no key, or its
/// one key, which is bound to its one RMB.
pub fn no_key_is_bound_again_too_early()
    ensures again { (setup : SetupT) → IsOneLink setup → (payload : List ℕ) (e : EntryT) (past : List EntryT) (n : ℕ)
        → IsPlayed setup payload (e ∷ past) n → (x : SideT) → AreBound x e past }
    ensures one { (setup : SetupT) → IsOneLink setup → (payload : List ℕ) (past : List EntryT) (n : ℕ)
        → IsPlayed setup payload past n → (x : SideT) → (keys_of x past ≡ no_keys) ⊎ (keys_of x past ≡ the_keys x) }
{}

/// No end is ever reset, so there is no cause to show.
pub fn no_end_is_reset()
    ensures none { (setup : SetupT) → IsOneLink setup → (payload : List ℕ) (past : List EntryT) (n : ℕ)
        → IsPlayed setup payload past n → (x : SideT) (s : ℕ) → kept_cause setup payload x s past ≡ None }
    ensures shown { (setup : SetupT) → IsOneLink setup → (payload : List ℕ) (past : List EntryT) (n : ℕ)
        → IsPlayed setup payload past n → CausesAreShown setup payload past }
{}

/// No element is lent again before each earlier connection that it was lent to is done with.
pub fn no_element_is_lent_again_too_early()
    ensures { (setup : SetupT) → IsOneLink setup → (payload : List ℕ) (e : EntryT) (past : List EntryT) (n : ℕ)
        → IsPlayed setup payload (e ∷ past) n → (x : SideT) → RelendsOnlyDone x e past }
{}

/// Each write that waits to land goes into the element that the peer offered to its connection, under
/// the peer's one key, and the CDC message behind it names that offer.
pub fn each_write_under_way_is_directed()
    ensures { (setup : SetupT) → IsOneLink setup → (payload : List ℕ) (x : SideT) (past : List EntryT) (n : ℕ)
        → IsPlayed setup payload past n → EachPlaced (IsUnderWay setup past) (unlanded the_link x past) }
{}

/// Each write that lands is home: its key is bound to the one RMB of the receiver, and its range lies in
/// the element that is lent to its connection. What lands stands in the history, and behind each write
/// in its entry stands the CDC message that names its connection.
pub fn each_write_lands_home()
    ensures home { (setup : SetupT) → IsOneLink setup → (payload : List ℕ) (e : EntryT) (past : List EntryT) (n : ℕ)
        → IsPlayed setup payload (e ∷ past) n → LandsHome setup payload e.event e.reply past }
{}

/// Every history that is played is lawful, with any bytes that its answers may have handed out.
pub fn a_played_history_is_lawful()
    ensures { (setup : SetupT) → IsOneLink setup → (payload : List ℕ) (past : List EntryT) (n : ℕ)
        → IsPlayed setup payload past n → (heard : List ℕ) → IsHeard setup payload past heard
        → IsLawfulPast setup payload past heard }
{}

/// All bytes that are read are claimed, so what a history hands out are the bytes of its answers and no
/// others, and as many as it counts.
pub fn what_is_heard_are_the_bytes_of_the_answers()
    ensures claimed { (setup : SetupT) → IsOneLink setup → (payload : List ℕ) (past : List EntryT) (n : ℕ)
        → IsPlayed setup payload past n → (event : EventT) → claims_bytes setup payload past event ≡ true }
    ensures these { (setup : SetupT) (payload : List ℕ) (past : List EntryT)
        → IsHeard setup payload past (all_bytes setup payload past) }
    ensures only { (setup : SetupT) → IsOneLink setup → (payload : List ℕ) (past : List EntryT) (n : ℕ)
        → IsPlayed setup payload past n → (heard : List ℕ) → IsHeard setup payload past heard
        → heard ≡ all_bytes setup payload past }
    ensures count { (setup : SetupT) (payload : List ℕ) (past : List EntryT) (n : ℕ)
        → IsPlayed setup payload past n → (heard : List ℕ) → IsHeard setup payload past heard → length heard ≡ n }
{}

/// What is declined is declined for a named lack that holds before the entry, by the message that is
/// taken where it is one.
pub fn a_lack_is_named_only_where_it_holds()
    ensures { (setup : SetupT) (payload : List ℕ) (e : EntryT) (past : List EntryT) (n : ℕ)
        → IsPlayed setup payload (e ∷ past) n → (lack : Lack) → e.reply ≡ Declined lack → IsLacking setup payload e.event past lack }
{}

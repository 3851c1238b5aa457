//! What every run of steps keeps, and what the calls of a connection are told over a whole history. Each
//! law is a function with nothing to do, whose contract is the law.

ghost use Rattle.std.specs.Prelude.{◌≡◌, ◌++◌, ℕ, List, length, None};
ghost use Rattle.pipe_model.specs.declared.setup.Setup.{Setup as SetupT};
ghost use Rattle.pipe_model.specs.declared.setup.Room.{Room as Places};
ghost use Rattle.pipe_model.specs.declared.entry.Entry.{Entry as EntryT};
ghost use Rattle.pipe_model.specs.declared.event.Event.{Event as EventT};
ghost use Rattle.pipe_model.specs.Connections.{group_on, part};
ghost use Rattle.pipe_model.specs.Lending.{terms_of};
ghost use Rattle.pipe_model.specs.Fits.{Fits};
ghost use Rattle.pipe_model.specs.Lawful.{IsLawful, IsStep, answers_on, was_told};
ghost use Rattle.world_core.specs.Settings.{bad_field};
ghost use Rattle.world_core.specs.Heard.{all_bytes, told_bytes};
ghost use Rattle.world_core.specs.Steps.{Seen, after_pump, after_step, entry_of, fresh_world, past, told_by};
ghost use Rattle.world_core.specs.Played.{IsOneLink, IsPlayed};
ghost use Rattle.world_core.specs.LawfulWorlds.{IsLawfulWorld};

/// A fresh world is lawful, and every step and every pump leaves a lawful world lawful.
pub fn every_run_of_steps_is_lawful()
    ensures fresh { (setup : SetupT) (payload : List ℕ) (room : Places) → bad_field setup room ≡ None
        → IsLawfulWorld (fresh_world setup payload room) }
    ensures step { (w : Seen) → IsLawfulWorld w → (actor : ℕ) (event : EventT) → Fits w.setup (length w.payload) event
        → IsLawfulWorld (after_step actor event w) }
    ensures pump { (w : Seen) → IsLawfulWorld w → (actor : ℕ) → IsLawfulWorld (after_pump actor w) }
{}

/// The history of a lawful world is lawful, with the bytes that it handed out; and each event that fits
/// makes a lawful step.
pub fn a_lawful_world_has_a_lawful_history()
    ensures history { (w : Seen) → IsLawfulWorld w → IsLawful w.setup w.payload w.history w.heard }
    ensures step { (w : Seen) → IsLawfulWorld w → (actor : ℕ) (event : EventT) → Fits w.setup (length w.payload) event
        → IsStep w.setup w.payload (past w) w.heard (entry_of w.setup w.payload (past w) (length w.heard) actor event)
        (w.heard ++ told_bytes (told_by w event)) }
{}

/// Over a whole history, what the calls of each connection were told is what its private pipe tells: a
/// function of the connection's own part of the history.
pub fn calls_were_told_by_their_pipes()
    ensures { (setup : SetupT) → IsOneLink setup → (payload : List ℕ) (past : List EntryT) (n : ℕ)
        → IsPlayed setup payload past n → (heard : List ℕ) → heard ≡ all_bytes setup payload past → (s : ℕ)
        → was_told setup payload (group_on s past) s heard past ≡ answers_on setup payload s past }
{}

/// The law of two worlds: where two connections, in any two histories, have equal terms and equal
/// parts, their calls were told the same, whatever else happened in the two worlds; bytes as far as they
/// are claimed, and here all are.
pub fn equal_parts_were_told_the_same()
    ensures { (t u : SetupT) → IsOneLink t → IsOneLink u → (p q : List ℕ) (past past2 : List EntryT) (n m : ℕ)
        → IsPlayed t p past n → IsPlayed u q past2 m → (s r : ℕ) → terms_of t ≡ terms_of u
        → part p (group_on s past) s past ≡ part q (group_on r past2) r past2
        → was_told t p (group_on s past) s (all_bytes t p past) past ≡ was_told u q (group_on r past2) r (all_bytes u q past2) past2 }
{}

//! Why a connection is declined or reset.
ghost use Rattle.history_laws.specs.Made.{IsMadeAll};
ghost use Rattle.link_laws.specs.Awaited.{AreOnKnown};
ghost use Rattle.pipe_model.specs.Causes.{CausesAreShown, DeclinesForLack, StaySettled, kept_cause};
ghost use Rattle.pipe_model.specs.declared.entry.Entry.{Entry};
ghost use Rattle.pipe_model.specs.declared.reply.ResetCause.{ResetCause};
ghost use Rattle.pipe_model.specs.declared.setup.Setup.{Setup};
ghost use Rattle.smc_num.specs.declared.Side.{Side};
ghost use Rattle.std.specs.Prelude.{List, Some, ℕ, ◌∷◌, ◌≡◌};

/// What is declined is declined for the lack that is named, and the lack holds before the entry.
pub fn a_decline_names_a_lack_that_holds()
    ensures { (setup : Setup) (payload : List ℕ) (e : Entry) (past : List Entry) → IsMadeAll setup payload (e ∷ past) → DeclinesForLack setup payload e.event e.reply past }
{}

/// Each end that is reset is so for a cause that the history shows: its own abort or its peer's, a gap
/// that a validation showed, the end of its group, or what a raw client sent.
pub fn resets_have_causes()
    ensures { (setup : Setup) (payload : List ℕ) (past : List Entry) → IsMadeAll setup payload past → AreOnKnown setup past → CausesAreShown setup payload past }
{}

/// An end that is up, has fallen back or was reset stays so, the group of one that is up stays, and
/// what resets an end is kept.
pub fn resets_stay()
    ensures settled { (setup : Setup) (payload : List ℕ) (e : Entry) (past : List Entry) → IsMadeAll setup payload (e ∷ past) → AreOnKnown setup (e ∷ past) → (s : ℕ) → StaySettled s e past }
    ensures kept { (setup : Setup) (payload : List ℕ) (e : Entry) (past : List Entry) → IsMadeAll setup payload (e ∷ past) → AreOnKnown setup (e ∷ past) → (x : Side) (s : ℕ) (cause : ResetCause) → kept_cause setup payload x s past ≡ Some cause → kept_cause setup payload x s (e ∷ past) ≡ Some cause }
{}

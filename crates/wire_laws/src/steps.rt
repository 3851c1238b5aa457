//! Every history that the definitions make is lawful.
ghost use Rattle.history_laws.specs.Made.{IsMade, IsMadeAll};
ghost use Rattle.lending_laws.specs.Lendings.{HasElements};
ghost use Rattle.link_laws.specs.Awaited.{AreOnKnown};
ghost use Rattle.pipe_model.specs.Lawful.{IsLawfulPast, IsStep};
ghost use Rattle.pipe_model.specs.declared.entry.Entry.{Entry};
ghost use Rattle.pipe_model.specs.declared.setup.Setup.{Setup};
ghost use Rattle.std.specs.Prelude.{List, length, ℕ, ◌∷◌};
ghost use Rattle.wire_laws.specs.Heard.{AddsBytes, IsMadeCounted, IsMadeWith, all_bytes};

/// An entry that the definitions make after such a history is a lawful step, with the bytes that its
/// answer hands out.
pub fn a_made_entry_is_a_lawful_step()
    ensures { (setup : Setup) (payload : List ℕ) (past : List Entry) (before : List ℕ) (e : Entry) (heard : List ℕ) → HasElements setup → IsMadeAll setup payload past → AreOnKnown setup (e ∷ past) → IsMade setup payload past (length before) e → AddsBytes setup payload past e.event before heard → IsStep setup payload past before e heard }
{}

/// A history that the definitions make is lawful, with any bytes that its answers ask for; and so with
/// the bytes of the answers themselves.
pub fn a_made_history_is_lawful()
    ensures any { (setup : Setup) (payload : List ℕ) (past : List Entry) (heard : List ℕ) → HasElements setup → IsMadeWith setup payload past heard → AreOnKnown setup past → IsLawfulPast setup payload past heard }
    ensures own { (setup : Setup) (payload : List ℕ) (past : List Entry) → HasElements setup → IsMadeCounted setup payload past → AreOnKnown setup past → IsLawfulPast setup payload past (all_bytes setup payload past) }
{}

/// And every lawful history is made so: what else a lawful step asks for follows.
pub fn a_lawful_history_is_made()
    ensures { (setup : Setup) (payload : List ℕ) (past : List Entry) (heard : List ℕ) → IsLawfulPast setup payload past heard → IsMadeWith setup payload past heard }
{}

//! What holds of every history whose entries are made by the definitions.
ghost use Rattle.history_laws.specs.Lists.{IsAmong};
ghost use Rattle.history_laws.specs.Made.{IsMadeAll};
ghost use Rattle.lending_laws.specs.Lendings.{AreApart, AreDone, AreLendings, HasElements};
ghost use Rattle.lending_laws.specs.Reuse.{CarriesNoBytes};
ghost use Rattle.link_laws.specs.Awaited.{AreOnKnown};
ghost use Rattle.link_laws.specs.Lasting.{is_lost};
ghost use Rattle.pipe_model.specs.Fabric.{has_ended};
ghost use Rattle.pipe_model.specs.Keys.{AreBound};
ghost use Rattle.pipe_model.specs.Lending.{RelendsOnlyDone, Lending, lendings, lent};
ghost use Rattle.pipe_model.specs.Words.{element_size};
ghost use Rattle.pipe_model.specs.declared.entry.Entry.{Entry};
ghost use Rattle.pipe_model.specs.declared.setup.Setup.{Setup};
ghost use Rattle.smc_num.specs.Names.{other};
ghost use Rattle.smc_num.specs.declared.LinkId.{LinkId};
ghost use Rattle.smc_num.specs.declared.Side.{Side};
ghost use Rattle.std.specs.Prelude.{List, false, ℕ, ◌∷◌, ◌≡◌};
ghost use Rattle.wire_laws.specs.Agreement.{Agrees};

/// Wires and pipes agree after every history whose entries are made by the definitions, on known
/// sockets.
pub fn wires_and_pipes_always_agree()
    ensures { (setup : Setup) (payload : List ℕ) (past : List Entry) → IsMadeAll setup payload past → AreOnKnown setup past → Agrees setup payload past }
{}

/// In such a history no element is lent again too early.
pub fn no_element_is_ever_lent_again_too_early()
    ensures { (setup : Setup) (payload : List ℕ) (e : Entry) (past : List Entry) (x : Side) → HasElements setup → IsMadeAll setup payload (e ∷ past) → AreOnKnown setup past → RelendsOnlyDone x e past }
{}

/// And lendings are numbered and apart, what is lent is held, and what is not lent is done with.
pub fn lendings_are_always_done_with()
    ensures { (setup : Setup) (payload : List ℕ) (past : List Entry) (x : Side) → HasElements setup → IsMadeAll setup payload past → AreOnKnown setup past → AreLendings x past × (AreApart setup payload x past × AreDone setup payload x past) }
{}

/// And where a lending has ended while its group stands, no link that the peer has not lost carries
/// bytes of its connection.
pub fn no_bytes_ever_come_after_a_lending()
    ensures { (setup : Setup) (payload : List ℕ) (past : List Entry) (y : Side) (l : Lending) (link : LinkId) → IsMadeAll setup payload past → AreOnKnown setup past → IsAmong l (lendings y past) → (IsAmong l (lent setup payload y past) → ⊥) → has_ended y l.group past ≡ false → is_lost (other y) link past ≡ false → CarriesNoBytes (element_size setup) link (other y) l past }
{}

/// And no key is bound to another RMB before what it named is done with, in the words of a lawful
/// step.
pub fn no_key_is_ever_bound_again_too_early()
    ensures { (setup : Setup) (payload : List ℕ) (x : Side) (e : Entry) (past : List Entry) → IsMadeAll setup payload (e ∷ past) → AreOnKnown setup past → AreBound x e past }
{}

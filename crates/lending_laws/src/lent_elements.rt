//! Elements that are lent, given back and lent again.
ghost use Rattle.history_laws.specs.Lists.{IsAmong};
ghost use Rattle.history_laws.specs.Made.{IsMadeAll};
ghost use Rattle.lending_laws.specs.Lendings.{AreApart, AreDone, AreLendings, HasElements};
ghost use Rattle.lending_laws.specs.Owed.{OwedLeast};
ghost use Rattle.lending_laws.specs.Reuse.{AreCarriedOn, CarriesNoBytes};
ghost use Rattle.link_laws.specs.Lasting.{is_lost};
ghost use Rattle.pipe_model.specs.Fabric.{has_ended};
ghost use Rattle.pipe_model.specs.Lending.{RelendsOnlyDone, Lending, lendings, lent, record_of};
ghost use Rattle.pipe_model.specs.Words.{element_size};
ghost use Rattle.pipe_model.specs.declared.entry.Entry.{Entry};
ghost use Rattle.pipe_model.specs.declared.setup.Setup.{Setup};
ghost use Rattle.smc_num.specs.Names.{other};
ghost use Rattle.smc_num.specs.declared.LinkId.{LinkId};
ghost use Rattle.smc_num.specs.declared.Side.{Side};
ghost use Rattle.std.specs.Prelude.{List, Some, false, ℕ, ◌∷◌, ◌≡◌};

/// An element is lent only where each earlier lending of it is done with.
pub fn no_element_is_lent_again_too_early()
    ensures { (setup : Setup) (payload : List ℕ) (e : Entry) (past : List Entry) (x : Side) → HasElements setup → IsMadeAll setup payload (e ∷ past) → OwedLeast setup payload past → RelendsOnlyDone x e past }
{}

/// Lendings are numbered and apart, what is lent is held, and what is not lent is done with.
pub fn lendings_are_done_with()
    ensures { (setup : Setup) (payload : List ℕ) (past : List Entry) (x : Side) → HasElements setup → IsMadeAll setup payload past → OwedLeast setup payload past → AreLendings x past × (AreApart setup payload x past × AreDone setup payload x past) }
{}

/// Where a lending has ended while its group stands, no link that the peer has not lost carries
/// bytes of its connection.
pub fn no_bytes_come_after_a_lending()
    ensures { (setup : Setup) (payload : List ℕ) (past : List Entry) (y : Side) (l : Lending) (link : LinkId) → IsMadeAll setup payload past → OwedLeast setup payload past → AreCarriedOn setup payload past → IsAmong l (lendings y past) → (IsAmong l (lent setup payload y past) → ⊥) → has_ended y l.group past ≡ false → is_lost (other y) link past ≡ false → CarriesNoBytes (element_size setup) link (other y) l past }
{}

/// While an element is lent, its token names just that lending.
pub fn a_token_names_its_lending()
    ensures { (setup : Setup) (payload : List ℕ) (past : List Entry) → IsMadeAll setup payload past → (y : Side) (l : Lending) → IsAmong l (lent setup payload y past) → record_of setup payload y l.token past ≡ Some l }
{}

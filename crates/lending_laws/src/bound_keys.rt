//! Keys that are bound, and keys that are learnt.
ghost use Rattle.history_laws.specs.Made.{IsMadeAll};
ghost use Rattle.lending_laws.specs.BoundKeys.{AreFreed, OwedByLendings};
ghost use Rattle.lending_laws.specs.KeyGroups.{AllOwedByGroups, AreOfGroup};
ghost use Rattle.lending_laws.specs.OwedKeys.{AllReplies, HasKeys};
ghost use Rattle.link_laws.specs.Covered.{AreCovered};
ghost use Rattle.link_laws.specs.Learnt.{IsBook};
ghost use Rattle.pipe_model.specs.Keys.{AreBound};
ghost use Rattle.pipe_model.specs.declared.entry.Entry.{Entry};
ghost use Rattle.pipe_model.specs.declared.setup.Setup.{Setup};
ghost use Rattle.smc_num.specs.declared.Side.{Side};
ghost use Rattle.std.specs.Prelude.{List, ℕ, ◌∷◌};

/// No key is bound to another RMB too early, in any history in which what lendings owe is paid.
pub fn keys_are_bound()
    ensures { (setup : Setup) (payload : List ℕ) (x : Side) (e : Entry) (past : List Entry) → OwedByLendings setup payload x (e ∷ past) → AreBound x e past }
{}

/// In such a history the lendings that a number named when it was bound last are done with, where
/// it is free.
pub fn free_numbers_are_done_with()
    ensures { (setup : Setup) (payload : List ℕ) (x : Side) (past : List Entry) → OwedByLendings setup payload x past → AreFreed x past }
{}

/// What a side's peer has learnt is bound there, and each confirmed RMB has its keys, where what
/// the answers to key requests owe is paid.
pub fn keys_are_known()
    ensures { (setup : Setup) (payload : List ℕ) (x : Side) (past : List Entry) → IsMadeAll setup payload past → AllReplies past → HasKeys x past }
{}

/// Each confirmed RMB has a key on each link on whose slot its side has keys: A on each that it
/// knows, B on each that is live there, or whose keys it has told, or which it confirms.
pub fn confirmed_rmbs_have_their_keys()
    ensures { (setup : Setup) (payload : List ℕ) (past : List Entry) → IsMadeAll setup payload past → (x : Side) → AreCovered x past }
{}

/// A side's keys, and what it has learnt, are for links of its group, where what is registered and
/// learnt is.
pub fn keys_are_of_the_group()
    ensures { (x : Side) (past : List Entry) → AllOwedByGroups x past → AreOfGroup x past × IsBook x past }
{}

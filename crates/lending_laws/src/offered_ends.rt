//! Offers, and the links of the ends that they establish.
ghost use Rattle.history_laws.specs.Made.{IsMadeAll};
ghost use Rattle.lending_laws.specs.Ends.{BeginsNew, HasLive, LivesOn};
ghost use Rattle.lending_laws.specs.Owed.{ArePlainOffers};
ghost use Rattle.link_laws.specs.Awaited.{AreOnKnown};
ghost use Rattle.pipe_model.specs.declared.entry.Entry.{Entry};
ghost use Rattle.pipe_model.specs.declared.setup.Setup.{Setup};
ghost use Rattle.std.specs.Prelude.{List, ℕ, ◌∷◌};

/// Offers are on known sockets, under different tokens, and A offers only where B has.
pub fn offers_are_plain()
    ensures { (setup : Setup) (payload : List ℕ) (past : List Entry) → IsMadeAll setup payload past → AreOnKnown setup past → ArePlainOffers setup past }
{}

/// An end that is up has the live links of its side, while its group stands.
pub fn ends_have_the_live_links()
    ensures { (setup : Setup) (payload : List ℕ) (past : List Entry) → IsMadeAll setup payload past → HasLive setup payload past }
{}

/// An end comes up on a link that is live at its side or was lost there, and a live link stays live
/// or is lost.
pub fn ends_come_up_on_live_links()
    ensures { (setup : Setup) (payload : List ℕ) (e : Entry) (past : List Entry) → IsMadeAll setup payload (e ∷ past) → LivesOn e past }
{}

/// A side begins a group only where it has none, and never one that has ended there.
pub fn groups_begin_new()
    ensures { (setup : Setup) (payload : List ℕ) (e : Entry) (past : List Entry) → IsMadeAll setup payload (e ∷ past) → BeginsNew e past }
{}

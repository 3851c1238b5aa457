//! CDC messages that are dropped.
ghost use Rattle.history_laws.specs.Made.{IsMadeAll};
ghost use Rattle.link_laws.specs.Awaited.{AreOnKnown};
ghost use Rattle.pipe_model.specs.declared.entry.Entry.{Entry};
ghost use Rattle.pipe_model.specs.declared.event.Event.TheVariants.{Deliver};
ghost use Rattle.pipe_model.specs.declared.reply.Reply.TheVariants.{Dropped};
ghost use Rattle.pipe_model.specs.declared.setup.Setup.{Setup};
ghost use Rattle.smc_num.specs.declared.Side.{Side};
ghost use Rattle.std.specs.Prelude.{List, ℕ, ◌∷◌, ◌≡◌};
ghost use Rattle.wire_laws.specs.Late.{IsLate};

/// A CDC message that lands where its token names no lending comes late: the end that it was for is
/// over, while its group stands, and the message carries no bytes.
pub fn dropped_messages_come_late()
    ensures { (setup : Setup) (payload : List ℕ) (e : Entry) (past : List Entry) → IsMadeAll setup payload (e ∷ past) → AreOnKnown setup past → (slot : ℕ) (dir : Side) (token : ℕ) → e.event ≡ Deliver slot dir → e.reply ≡ Dropped token → IsLate setup payload dir past token }
{}

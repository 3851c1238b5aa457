//! Which histories can be written as traces.
ghost use Rattle.history_laws.specs.Made.{IsMadeAll};
ghost use Rattle.pipe_model.specs.Lawful.{IsLawful};
ghost use Rattle.pipe_model.specs.declared.entry.Entry.{Entry};
ghost use Rattle.pipe_model.specs.declared.setup.Setup.{Setup};
ghost use Rattle.std.specs.Prelude.{List, length, ℕ, ◌^◌, ◌≤◌};
ghost use Rattle.trace_laws.specs.Codes.{HasCodes};
ghost use Rattle.wire_trace.specs.Traced.{AreWritable};

/// Each message of a history of at most 262,144 entries that have the reply and the posts of the
/// definitions can be written: its queue pair and its group have 24 bits, and its codes 4.
pub fn made_messages_can_be_written()
    ensures { (setup : Setup) (payload : List ℕ) (past : List Entry) → HasCodes setup → IsMadeAll setup payload past → length past ≤ 2 ^ 18 → AreWritable past }
{}

/// So can each message of a lawful history of so many entries.
pub fn lawful_histories_can_be_written()
    ensures { (setup : Setup) (payload : List ℕ) (history : List Entry) (heard : List ℕ) → HasCodes setup → IsLawful setup payload history heard → length history ≤ 2 ^ 18 → AreWritable history }
{}

//! Links, groups, flows, the messages under way and first contact, in one induction over every event.
ghost use Rattle.history_laws.specs.Made.{IsMadeAll};
ghost use Rattle.link_laws.specs.Awaited.{AllWith, AreOnKnown};
ghost use Rattle.link_laws.specs.Joined.{HasAllFlows, HasContact};
ghost use Rattle.pipe_model.specs.Lawful.{IsLawfulPast};
ghost use Rattle.pipe_model.specs.declared.entry.Entry.{Entry};
ghost use Rattle.pipe_model.specs.declared.setup.Setup.{Setup};
ghost use Rattle.std.specs.Prelude.{List, ℕ};

/// After every history whose entries have the reply and the posts of the definitions, links,
/// groups, flows, the wires of the link flow and first contact are right together.
pub fn first_contact_holds()
    ensures { (setup : Setup) (payload : List ℕ) (past : List Entry) → IsMadeAll setup payload past → HasContact past }
{}

/// After every such history each side's key flow and its test of each slot are right too.
pub fn all_flows_hold()
    ensures { (setup : Setup) (payload : List ℕ) (past : List Entry) → IsMadeAll setup payload past → HasAllFlows past }
{}

/// So all of it is right after every lawful history.
pub fn lawful_histories_flow()
    ensures { (setup : Setup) (payload : List ℕ) (past : List Entry) (heard : List ℕ) → IsLawfulPast setup payload past heard → HasAllFlows past }
{}

/// Where a first link goes live at a side, the end whose offer named it waits for its link, in
/// every history on known sockets.
pub fn ends_wait_for_their_first_link()
    ensures { (setup : Setup) (payload : List ℕ) (past : List Entry) → IsMadeAll setup payload past → AreOnKnown setup past → AllWith setup past }
{}

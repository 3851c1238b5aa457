//! Writes that wait to land, and those that do.
ghost use Rattle.history_laws.specs.Lists.{IsAmong};
ghost use Rattle.history_laws.specs.Made.{IsMadeAll};
ghost use Rattle.link_laws.specs.Awaited.{AreOnKnown};
ghost use Rattle.pipe_model.specs.Fabric.{table_of};
ghost use Rattle.pipe_model.specs.Home.{LandsHome};
ghost use Rattle.pipe_model.specs.Keys.{keys_of};
ghost use Rattle.pipe_model.specs.Lending.{Lending, lent};
ghost use Rattle.pipe_model.specs.declared.entry.Entry.{Entry};
ghost use Rattle.pipe_model.specs.declared.post.Placed.{Placed};
ghost use Rattle.pipe_model.specs.declared.post.PostRef.{PostRef};
ghost use Rattle.pipe_model.specs.declared.setup.Setup.{Setup};
ghost use Rattle.smc_num.specs.Links.{stands};
ghost use Rattle.smc_num.specs.Names.{other};
ghost use Rattle.smc_num.specs.declared.LinkId.{LinkId};
ghost use Rattle.smc_num.specs.declared.Side.{Side};
ghost use Rattle.std.specs.Prelude.{List, true, ℕ, ◌∷◌, ◌≡◌};
ghost use Rattle.wire_laws.specs.Writes.{GoesToLent, GoesUnderBound, HasMessage, IsWaitingWrite};

/// A write that waits on a link which its side has not lost has its message behind it, in its entry
/// and on the wire.
pub fn writes_wait_before_their_messages()
    ensures { (setup : Setup) (payload : List ℕ) (past : List Entry) → IsMadeAll setup payload past → AreOnKnown setup past → (x : Side) (link : LinkId) (at : PostRef) (key address len : ℕ) (behind : List Placed) → IsWaitingWrite x link past at key address len behind → HasMessage x link past at behind }
{}

/// Its range lies in the element of the lending that its message names, which is lent unless the
/// group has ended at the peer.
pub fn writes_wait_for_lent_elements()
    ensures { (setup : Setup) (payload : List ℕ) (past : List Entry) → IsMadeAll setup payload past → AreOnKnown setup past → (x : Side) (link : LinkId) (at : PostRef) (key address len : ℕ) (behind : List Placed) → IsWaitingWrite x link past at key address len behind → GoesToLent setup payload (other x) past at address len }
{}

/// The RMB of each element that is lent is confirmed.
pub fn rmbs_of_lent_elements_are_confirmed()
    ensures { (setup : Setup) (payload : List ℕ) (past : List Entry) → IsMadeAll setup payload past → AreOnKnown setup past → (x : Side) (l : Lending) → IsAmong l (lent setup payload x past) → IsAmong l.place.rmb (keys_of x past).confirmed }
{}

/// Where the link stands at the peer too, its key is bound there to the RMB of that element, and to
/// no other.
pub fn writes_wait_under_bound_keys()
    ensures { (setup : Setup) (payload : List ℕ) (past : List Entry) → IsMadeAll setup payload past → AreOnKnown setup past → (x : Side) (link : LinkId) (at : PostRef) (key address len : ℕ) (behind : List Placed) → IsWaitingWrite x link past at key address len behind → stands link (table_of (other x) past) ≡ true → GoesUnderBound setup payload (other x) link past at key address len }
{}

/// So each write that lands is home.
pub fn each_write_that_lands_is_home()
    ensures { (setup : Setup) (payload : List ℕ) (e : Entry) (past : List Entry) → IsMadeAll setup payload (e ∷ past) → AreOnKnown setup past → LandsHome setup payload e.event e.reply past }
{}

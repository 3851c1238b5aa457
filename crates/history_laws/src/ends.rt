//! What holds of the two ends of a socket, and of their offers.
ghost use Rattle.history_laws.specs.Made.{IsMadeAll};
ghost use Rattle.history_laws.specs.Offers.{HasOffers, HasStates};
ghost use Rattle.pipe_model.specs.Connections.{is_up, items, part};
ghost use Rattle.pipe_model.specs.Ends.{is_over};
ghost use Rattle.pipe_model.specs.Parts.{IsFeasible};
ghost use Rattle.pipe_model.specs.Pipe.{Item, Terms, half, pipe};
ghost use Rattle.pipe_model.specs.declared.entry.Entry.{Entry};
ghost use Rattle.pipe_model.specs.declared.setup.Setup.{Setup};
ghost use Rattle.smc_num.specs.declared.Side.{Side};
ghost use Rattle.std.specs.Prelude.{List, true, ℕ, ◌++◌, ◌≡◌};

/// A waits for no Proposal and no Confirm, and B for no answer; where there is an end, its socket
/// was opened or is raw, and no socket is both.
pub fn ends_are_in_states_of_their_own()
    ensures { (setup : Setup) (payload : List ℕ) (past : List Entry) → IsMadeAll setup payload past → (s : ℕ) → HasStates s past }
{}

/// A side offers on a socket once, A only where B has, and an Accept or a Confirm under way is the
/// offer that was made.
pub fn offers_are_made_once()
    ensures { (setup : Setup) (payload : List ℕ) (past : List Entry) → IsMadeAll setup payload past → (s : ℕ) → HasOffers s past }
{}

/// An end of a private pipe is up just where the end of its socket is.
pub fn an_end_is_up_in_its_pipe_as_in_the_history()
    ensures { (t : Terms) (x : Side) (payload : List ℕ) (group s : ℕ) (past : List Entry) → (half x (pipe t (part payload group s past))).up ≡ is_up x s past }
{}

/// An end that is over stays over, whatever follows in a part that can be.
pub fn an_end_that_is_over_stays_over()
    ensures { (t : Terms) (x : Side) (news items : List Item) → IsFeasible t (news ++ items) → is_over (half x (pipe t items)) ≡ true → is_over (half x (pipe t (news ++ items))) ≡ true }
{}

// What passes share by turns.
ghost use Rattle.std.specs.Prelude.{◌≡◌, List, length};
ghost use Rattle.turn_cell.specs.Lists.{Grows};

use std::marker::Send;

/// To contracts a machine is a fixed part, which no call changes, and a list of fewer than 2^32 entries.
///
/// Each implementation says what a call does, as the relation `step` of the fixed part, the list before, the call,
/// the reply and the list after, and at which fixed parts a call is `allowed`.
pub trait Machine: Send {
    /// What a caller asks.
    type Call;

    /// What the machine answers.
    type Reply;

    /// The part that no call changes. No value of this type is made.
    type Fixed;

    /// One entry of the list. No value of this type need be made.
    type Entry;

    ghost fixed: { Self → Self.Fixed };

    ghost list: { Self → List Self.Entry };

    ghost step: { Self.Fixed → List Self.Entry → Self.Call → Self.Reply → List Self.Entry → Type 0 };

    ghost allowed: { Self.Fixed → Self.Call → Type 0 };

    /// Makes the call. The list stays, or has one more entry at its end.
    fn apply(&mut self, call: Self::Call) -> Self::Reply
        requires { allowed (fixed self.old) call }
        ensures fixed { fixed self.new ≡ fixed self.old }
        ensures step { step (fixed self.old) (list self.old) call result (list self.new) }
        ensures grows { Grows (list self.old) (list self.new) };

    /// How many entries the list has.
    fn entries(&self) -> u32
        ensures { result ≡ length (list self.now) };
}

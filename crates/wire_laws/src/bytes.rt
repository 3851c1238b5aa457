//! What stands in the RMBs of the two sides.
ghost use Rattle.history_laws.specs.Lists.{IsAmong};
ghost use Rattle.history_laws.specs.Made.{IsMadeAll};
ghost use Rattle.lending_laws.specs.Lendings.{HasElements};
ghost use Rattle.link_laws.specs.Awaited.{AreOnKnown};
ghost use Rattle.pipe_model.specs.Calls.{Hands, Reads};
ghost use Rattle.pipe_model.specs.Connections.{group_on, part};
ghost use Rattle.pipe_model.specs.History.{Offered, offered};
ghost use Rattle.pipe_model.specs.Lending.{lends_by, lent, pipe_of, terms_of};
ghost use Rattle.pipe_model.specs.Parts.{covered, is_shut};
ghost use Rattle.pipe_model.specs.Pipe.{half, is_near_part, told};
ghost use Rattle.pipe_model.specs.Posts.{offered_place};
ghost use Rattle.pipe_model.specs.Words.{element_size};
ghost use Rattle.pipe_model.specs.declared.entry.Entry.{Entry};
ghost use Rattle.pipe_model.specs.declared.setup.Setup.{Setup};
ghost use Rattle.smc_num.specs.Names.{other};
ghost use Rattle.smc_num.specs.Places.{address_of};
ghost use Rattle.smc_num.specs.declared.Side.{Side};
ghost use Rattle.std.specs.Prelude.{List, Some, false, length, slice_index_or, true, ℕ, ◌+◌, ◌<◌, ◌≡◌};
ghost use Rattle.wire_laws.specs.Memory.{StandUnread, byte_in};

/// While the element of an end is lent, the bytes of its peer that have landed without a hole and
/// that it has not read stand in it.
pub fn landed_bytes_stand_at_their_places()
    ensures { (setup : Setup) (payload : List ℕ) (past : List Entry) → HasElements setup → IsMadeAll setup payload past → AreOnKnown setup past → (y : Side) (s : ℕ) (o : Offered) → offered y s past ≡ Some o → IsAmong (lends_by s o.link o.offer) (lent setup payload y past) → StandUnread setup payload y s o past (covered (terms_of setup) (other y) (part payload (group_on s past) s past)) }
{}

/// So do all that it was told, where all validation messages of the connection were near, unless it
/// is reset or closing.
pub fn told_bytes_stand_at_their_places()
    ensures { (setup : Setup) (payload : List ℕ) (past : List Entry) → HasElements setup → IsMadeAll setup payload past → AreOnKnown setup past → (y : Side) (s : ℕ) (o : Offered) → offered y s past ≡ Some o → IsAmong (lends_by s o.link o.offer) (lent setup payload y past) → is_near_part (terms_of setup) (part payload (group_on s past) s past) ≡ true → is_shut (half y (pipe_of setup payload (group_on s past) s past)).phase ≡ false → StandUnread setup payload y s o past (half y (pipe_of setup payload (group_on s past) s past)).taken.told }
{}

/// And what a read of the end hands out is what stands in its element from the first byte on that it
/// has not read.
pub fn reads_hand_out_what_stands()
    ensures { (setup : Setup) (payload : List ℕ) (past : List Entry) → HasElements setup → IsMadeAll setup payload past → AreOnKnown setup past → (y : Side) (s : ℕ) (o : Offered) → offered y s past ≡ Some o → IsAmong (lends_by s o.link o.offer) (lent setup payload y past) → is_near_part (terms_of setup) (part payload (group_on s past) s past) ≡ true → (n : ℕ) (bytes : List ℕ) → told (terms_of setup) y (Reads n) (pipe_of setup payload (group_on s past) s past) ≡ Hands bytes → (j : ℕ) → j < length bytes → slice_index_or bytes j 0 ≡ byte_in setup payload y (offered_place o.offer).rmb (address_of (element_size setup) (offered_place o.offer) ((half y (pipe_of setup payload (group_on s past) s past)).rd + j)) past }
{}

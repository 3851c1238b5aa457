//! What holds of the bytes that land in the RMBs of the two sides, in every history that this world
//! can make. Each law is a function with nothing to do, whose contract is the law.

ghost use Rattle.std.specs.Prelude.{◌≡◌, ℕ, ◌<◌, ◌≤◌, List, Some, slice_index_or};
ghost use Rattle.smc_num.specs.declared.Side.{Side as SideT};
ghost use Rattle.smc_num.specs.Names.{other};
ghost use Rattle.smc_num.specs.Places.{address_of};
ghost use Rattle.rmb_region.specs.Regions.{byte_at};
ghost use Rattle.pipe_model.specs.declared.setup.Setup.{Setup as SetupT};
ghost use Rattle.pipe_model.specs.declared.entry.Entry.{Entry as EntryT};
ghost use Rattle.pipe_model.specs.Words.{element_size};
ghost use Rattle.pipe_model.specs.History.{Offered, offered};
ghost use Rattle.pipe_model.specs.Pipe.{half};
ghost use Rattle.pipe_model.specs.Connections.{group_on};
ghost use Rattle.pipe_model.specs.Lending.{pipe_of};
ghost use Rattle.pipe_model.specs.Posts.{offered_place};
ghost use Rattle.world_core.specs.Played.{IsOneLink, IsPlayed};
ghost use Rattle.world_core.specs.Landed.{buffer_of, IsRmb, Reaches};

/// The buffer of a side is its one RMB, with all its bytes.
pub fn a_buffer_is_the_rmb()
    ensures { (setup : SetupT) → IsOneLink setup → (payload : List ℕ) (past : List EntryT) (n : ℕ)
        → IsPlayed setup payload past n → (y : SideT) → IsRmb setup y (buffer_of setup payload y 1 past) }
{}

/// The bytes of an end have landed without a hole up to some place, which is no less than what its
/// peer was told; from there on the link carries them; and those that the peer has not read stand in
/// the element that the peer offered.
pub fn the_bytes_of_an_end_reach()
    ensures { (setup : SetupT) → IsOneLink setup → (payload : List ℕ) (past : List EntryT) (n : ℕ)
        → IsPlayed setup payload past n → (x : SideT) (s : ℕ) (o : Offered) → offered (other x) s past ≡ Some o
        → Reaches setup payload x s o past }
{}

/// Each byte that an end was told of and has not read stands at its address in the end's element.
pub fn told_bytes_stand_in_the_element()
    ensures { (setup : SetupT) → IsOneLink setup → (payload : List ℕ) (past : List EntryT) (n : ℕ)
        → IsPlayed setup payload past n → (y : SideT) (s : ℕ) (o : Offered) → offered y s past ≡ Some o
        → (k : ℕ) → (half y (pipe_of setup payload (group_on s past) s past)).rd ≤ k
        → k < (half y (pipe_of setup payload (group_on s past) s past)).taken.told
        → byte_at (address_of (element_size setup) (offered_place o.offer) k) (buffer_of setup payload y 1 past)
        ≡ slice_index_or (half (other y) (pipe_of setup payload (group_on s past) s past)).out k 0 }
{}

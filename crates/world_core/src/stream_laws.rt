//! What the TCP streams of a history of one link are, entry by entry. Each law is a function with
//! nothing to do, whose contract is the law.

ghost use Rattle.std.specs.Prelude.{◌≡◌, ℕ, true, false, List, [], ◌∷◌, filter_map, length, Some, drop, flat_map, ◌++◌, ◌≤◌, ◌<◌, take, slice_set, slice_index_or, ◌^◌, ◌-◌};
ghost use Rattle.smc_num.specs.declared.Side.{Side as SideT};
ghost use Rattle.smc_num.specs.Names.{head, other};
ghost use Rattle.pipe_model.specs.declared.setup.Setup.{Setup as SetupT};
ghost use Rattle.pipe_model.specs.declared.event.End.{End as EndName};
ghost use Rattle.pipe_model.specs.declared.event.Event.TheVariants.{Write, Read, Clc};
ghost use Rattle.pipe_model.specs.declared.reply.Reply.TheVariants.{Bytes};
ghost use Rattle.pipe_model.specs.declared.entry.Entry.{Entry as EntryT};
ghost use Rattle.clc_wire.specs.declared.message.ClcMessage.{ClcMessage as Message};
ghost use Rattle.clc_wire.specs.Clc.{Fits, IsMessage, clc_bytes, clc_length};
ghost use Rattle.pipe_model.specs.Fallback.{clc_in, is_fallen, stream, stream_room, untaken, written, read_out, takes_clc, takes_message};
ghost use Rattle.side_core.specs.Setups.{IsSet};
ghost use Rattle.world_core.specs.Played.{IsOneLink, IsPlayed};
ghost use Rattle.world_core.specs.Hosts.{IsStreamAfter};
ghost use Rattle.world_core.specs.Sending.{acting_side, outflow_at, puts_all, takes_next};
ghost use Rattle.world_core.specs.declared.host.Outflow.{Outflow as Stream};
ghost use Rattle.world_core.specs.Streams.{may_post_clc, takes_in, gives_out};

/// A call, a landing or a completion posts no CLC message.
pub fn only_the_handshake_posts_clc()
    ensures { (setup : SetupT) → IsOneLink setup → (payload : List ℕ) (e : EntryT) (past : List EntryT) (n : ℕ)
        → IsPlayed setup payload (e ∷ past) n → may_post_clc e.event ≡ false → (x : SideT) (s : ℕ) → filter_map (clc_in x s) e.posts ≡ [] }
{}

/// The CLC messages that wait to be taken have the lengths that are told of them.
pub fn untaken_messages_are_as_long_as_told()
    ensures { (setup : SetupT) → IsOneLink setup → (payload : List ℕ) (past : List EntryT) (n : ℕ)
        → IsPlayed setup payload past n → (x : SideT) (s : ℕ) (m : Message) → head (untaken x s past) ≡ Some m → length (clc_bytes m) ≡ clc_length m }
{}

/// The stream of an end that has not fallen back holds the CLC messages that wait, and nothing else; and
/// one that has fallen back was heard out by its own side.
pub fn a_stream_begins_with_what_waits()
    ensures alone { (setup : SetupT) → IsOneLink setup → (payload : List ℕ) (past : List EntryT) (n : ℕ)
        → IsPlayed setup payload past n → (x : SideT) (s : ℕ) → is_fallen x s past ≡ false → stream payload x s past ≡ flat_map clc_bytes (untaken x s past) }
    ensures front { (setup : SetupT) → IsOneLink setup → (payload : List ℕ) (past : List EntryT) (n : ℕ)
        → IsPlayed setup payload past n → (x : SideT) (s : ℕ) → (more : List ℕ) × (stream payload x s past ≡ flat_map clc_bytes (untaken x s past) ++ more) }
    ensures fits { (setup : SetupT) → IsOneLink setup → (payload : List ℕ) (past : List EntryT) (n : ℕ)
        → IsPlayed setup payload past n → (x : SideT) (s : ℕ) → length (stream payload x s past) ≤ stream_room }
    ensures heard { (setup : SetupT) → IsOneLink setup → (payload : List ℕ) (past : List EntryT) (n : ℕ)
        → IsPlayed setup payload past n → (y : SideT) (s : ℕ) → is_fallen y s past ≡ true → untaken (other y) s past ≡ [] }
    ensures few { (setup : SetupT) → IsOneLink setup → (payload : List ℕ) (past : List EntryT) (n : ℕ)
        → IsPlayed setup payload past n → (x : SideT) (s : ℕ) → drop 1 (untaken x s past) ≡ [] }
    ensures stays { (setup : SetupT) → IsOneLink setup → (payload : List ℕ) (e : EntryT) (past : List EntryT) (n : ℕ)
        → IsPlayed setup payload (e ∷ past) n → (x : SideT) (s : ℕ) → is_fallen x s past ≡ true → is_fallen x s (e ∷ past) ≡ true }
{}

/// The streams that a host keeps of its own side stand for the history with an entry as soon as the
/// posts of the entry went into them, where its application writes nothing. A CLC message that is posted
/// has room there.
pub fn own_streams_stand_with_the_posts()
    ensures room { (setup : SetupT) → IsOneLink setup → (payload : List ℕ) (e : EntryT) (past : List EntryT) (n : ℕ)
        → IsPlayed setup payload (e ∷ past) n → (s : ℕ) (m : Message) → filter_map (clc_in (acting_side e.event) s) e.posts ≡ m ∷ []
        → length (clc_bytes m) ≤ stream_room - length (stream payload (acting_side e.event) s past) }
    ensures stand { (setup : SetupT) → IsOneLink setup → (payload : List ℕ) (e : EntryT) (past : List EntryT) (n : ℕ)
        → IsPlayed setup payload (e ∷ past) n → (flows : List Stream) → length flows ≡ setup.sockets
        → ((s : ℕ) → s < setup.sockets → IsStreamAfter payload (acting_side e.event) s past (outflow_at s flows))
        → ((s : ℕ) → written payload (acting_side e.event) s e.event e.reply past ≡ [])
        → (s : ℕ) → s < setup.sockets → IsStreamAfter payload (acting_side e.event) s (e ∷ past) (outflow_at s (puts_all e.posts flows)) }
{}

/// A write on an end that has fallen back puts into its stream what there is room for; the other streams
/// of its side stay as they are.
pub fn a_write_goes_into_the_own_stream()
    ensures { (setup : SetupT) → IsOneLink setup → (payload : List ℕ) (e : EntryT) (past : List EntryT) (n : ℕ)
        → IsPlayed setup payload (e ∷ past) n → (end : EndName) (at len : ℕ) → e.event ≡ Write end at len → is_fallen end.side end.s past ≡ true
        → (flows : List Stream) → length flows ≡ setup.sockets
        → ((s : ℕ) → s < setup.sockets → IsStreamAfter payload end.side s past (outflow_at s flows))
        → (s : ℕ) → s < setup.sockets
        → IsStreamAfter payload end.side s (e ∷ past) (outflow_at s (slice_set flows end.s (takes_in (take len (drop at payload)) (outflow_at end.s flows)))) }
{}

/// The streams of the side that doesn't act stay as they are where nothing is taken out of them; a
/// message that is taken leaves with its bytes, and a read takes out as many bytes as it tells.
pub fn the_peers_streams_give_what_is_taken()
    ensures stay { (setup : SetupT) → IsOneLink setup → (payload : List ℕ) (e : EntryT) (past : List EntryT) (n : ℕ)
        → IsPlayed setup payload (e ∷ past) n → (x : SideT) → acting_side e.event ≡ other x → (flows : List Stream)
        → ((s : ℕ) → takes_clc x s e.event e.reply ≡ false) → ((s : ℕ) → read_out x s e.event e.reply past ≡ 0)
        → ((s : ℕ) → s < setup.sockets → IsStreamAfter payload x s past (outflow_at s flows))
        → (s : ℕ) → s < setup.sockets → IsStreamAfter payload x s (e ∷ past) (outflow_at s flows) }
    ensures message { (setup : SetupT) → IsOneLink setup → (payload : List ℕ) (e : EntryT) (past : List EntryT) (n : ℕ)
        → IsPlayed setup payload (e ∷ past) n → (x : SideT) (t : ℕ) (m : Message) → e.event ≡ Clc t x → takes_message e.reply ≡ true
        → head (untaken x t past) ≡ Some m → (flows : List Stream) → length flows ≡ setup.sockets
        → ((s : ℕ) → s < setup.sockets → IsStreamAfter payload x s past (outflow_at s flows))
        → (s : ℕ) → s < setup.sockets → IsStreamAfter payload x s (e ∷ past) (outflow_at s (slice_set flows t (takes_next m (outflow_at t flows)))) }
    ensures read { (setup : SetupT) → IsOneLink setup → (payload : List ℕ) (e : EntryT) (past : List EntryT) (n : ℕ)
        → IsPlayed setup payload (e ∷ past) n → (end : EndName) (len from k : ℕ) → e.event ≡ Read end len → e.reply ≡ Bytes from k
        → is_fallen end.side end.s past ≡ true → (flows : List Stream) → length flows ≡ setup.sockets
        → ((s : ℕ) → s < setup.sockets → IsStreamAfter payload (other end.side) s past (outflow_at s flows))
        → (s : ℕ) → s < setup.sockets
        → IsStreamAfter payload (other end.side) s (e ∷ past) (outflow_at s (slice_set flows end.s (gives_out k (outflow_at end.s flows)))) }
{}

/// The fields of the CLC messages that wait to be taken fit, so that each can be written.
pub fn untaken_messages_can_be_written()
    ensures fits { (setup : SetupT) → IsOneLink setup → (payload : List ℕ) (past : List EntryT) (n : ℕ)
        → IsPlayed setup payload past n → length past ≤ 2 ^ 18 → (y : SideT) → IsSet setup y
        → (x : SideT) (s : ℕ) (m : Message) → head (untaken x s past) ≡ Some m → Fits m }
    ensures widths { (setup : SetupT) → IsOneLink setup → (payload : List ℕ) (past : List EntryT) (n : ℕ)
        → IsPlayed setup payload past n → length past ≤ 2 ^ 18 → (y : SideT) → IsSet setup y
        → (x : SideT) (s : ℕ) (m : Message) → head (untaken x s past) ≡ Some m
        → (slice_index_or setup.subnet 0 (0, 0)).0 < 2 ^ 32 → IsMessage m }
{}

//! What an application's call on an end does to the hosts.
ghost use Rattle.std.specs.Prelude.{◌≡◌, ◌++◌, ◌+◌, ◌≤◌, ◌<◌, ◌^◌, false, length, take, drop, replicate, slice_set, vec_len, vec_capacity, []};
ghost use Rattle.pipe_model.specs.declared.closing.Phase.TheVariants.{Open};
ghost use Rattle.pipe_model.specs.Ends.{Half};
ghost use Rattle.pipe_model.specs.Calls.{Plain, Writes, Reads};
ghost use Rattle.pipe_model.specs.Connections.{IsUp};
ghost use Rattle.pipe_model.specs.Fallback.{fallen_read, fallen_write};
ghost use Rattle.pipe_model.specs.Lawful.{reply_of};
ghost use Rattle.pipe_model.specs.Replies.{told};
ghost use Rattle.pipe_model.specs.declared.event.Event.TheVariants.{Write, Read};
ghost use Rattle.tcp_pipe.specs.Streams.{free};
ghost use Rattle.conn_end.specs.Told.{Answers};
ghost use Rattle.side_core.specs.Acting.{handed_out};
ghost use Rattle.side_core.specs.Landing.{told_at as told_by_end};
ghost use Rattle.side_core.specs.Manager.{Manager, Represents, state_at};
ghost use Rattle.side_core.specs.Records.{half_at, route_at};
ghost use Rattle.world_core.specs.Calling.{MayCall, IsCalledAt, replied, taken, hands_over};
ghost use Rattle.world_core.specs.Streams.{takes_in};
ghost use Rattle.world_core.specs.Sending.{outflow_at};
ghost use Rattle.world_core.specs.Played.{handed};
ghost use Rattle.world_core.specs.Heard.{told_bytes};
ghost use Rattle.world_core.specs.Hosts.{AreHosts, IsPlayedBy, KnowSocket, told_at};
ghost use Rattle.world_core.specs.declared.host.Host.{Host as HostT};

use crate::host::{Host, Outflow};
use crate::moment::Moment;
use arrayvec::ArrayVec;
use clc_handshake::EndState;
use conn_end::EndReply;
use pipe_model::{End, Post, Reply, Side};

/// An application writes bytes of the payload: an established end takes what its window has room for,
/// an end that has fallen back what its stream has room for.
pub fn write(
    own: &mut Host,
    moment: Moment<'_>,
    end: End,
    at: u32,
    len: u32,
    posts: &mut ArrayVec<Post, 6>,
) -> Reply
    requires hosts { (theirs : HostT) × AreHosts moment end.side own.old theirs }
    requires few { length moment.history.now < 2 ^ 18 }
    requires socket { end.s < moment.setup.now.sockets }
    requires within { at + len ≤ length moment.payload.now }
    requires none { posts.old.items ≡ [] }
    ensures { (theirs : HostT) → AreHosts moment.entry end.side own.old theirs → IsPlayedBy moment.entry (Write end at len) result posts.new.items end.side own.new theirs }
{
    let bytes = bytes_of(moment.payload, at, len);
    match own.core.end_state(end.s) {
        EndState::Absent => Reply::NoSocket,
        EndState::Up => write_up(own, moment.history.len() as u32 + 1, end.s, bytes, posts),
        EndState::FellBack => write_fallen(&mut own.flows, end.s, bytes),
        _ => Reply::NotYet,
    }
}

/// How many bytes a read would hand out.
pub fn due_bytes(own: &Host, theirs: &Host, end: End, len: u32) -> u32
    requires { KnowSocket end.s end.side own.now theirs.now }
    ensures { (k : KnowSocket end.s end.side own.now theirs.now) → result ≡ handed (told k.setup k.payload k.past (Read end len)) }
{
    match own.core.end_state(end.s) {
        EndState::Up => count_of(own.core.would_read(end.s, len)),
        EndState::FellBack => held(&theirs.flows, end.s).min(len),
        _ => 0,
    }
}

/// An application reads: bytes that an established end was told of come out of its element, and those of
/// an end that has fallen back out of its peer's stream. They stand behind all that was handed out before.
pub fn read(
    own: &mut Host,
    theirs: &mut Host,
    moment: Moment<'_>,
    end: End,
    len: u32,
    heard: &mut Vec<u8>,
    posts: &mut ArrayVec<Post, 6>,
) -> Reply
    requires hosts { AreHosts moment end.side own.old theirs.old }
    requires few { length moment.history.now < 2 ^ 18 }
    requires socket { end.s < moment.setup.now.sockets }
    requires before { vec_len heard.old ≡ moment.heard }
    requires room { vec_len heard.old + handed (told_at moment (Read end len)) ≤ vec_capacity heard.old }
    requires least { vec_len heard.old + handed (told_at moment (Read end len)) ≤ 2 ^ 26 }
    requires none { posts.old.items ≡ [] }
    ensures played { IsPlayedBy moment.entry (Read end len) result posts.new.items end.side own.new theirs.new }
    ensures heard { heard.new.items ≡ heard.old.items ++ told_bytes (told_at moment.entry (Read end len)) }
    ensures capacity { vec_capacity heard.old ≤ vec_capacity heard.new }
{
    match own.core.end_state(end.s) {
        EndState::Absent => Reply::NoSocket,
        EndState::Up => read_established(own, moment, end, len, heard, posts),
        EndState::FellBack => read_fallen(&mut theirs.flows, end.s, len, heard),
        _ => Reply::NotYet,
    }
}

/// The same where the end is established: its bytes are copied into new places at the end of `heard`.
fn read_established(
    own: &mut Host,
    moment: Moment<'_>,
    end: End,
    len: u32,
    heard: &mut Vec<u8>,
    posts: &mut ArrayVec<Post, 6>,
) -> Reply
    requires hosts { (theirs : HostT) × AreHosts moment end.side own.old theirs }
    requires few { length moment.history.now < 2 ^ 18 }
    requires socket { end.s < moment.setup.now.sockets }
    requires up { state_at end.s own.old.core ≡ IsUp }
    requires before { vec_len heard.old ≡ moment.heard }
    requires room { vec_len heard.old + handed (told_at moment (Read end len)) ≤ vec_capacity heard.old }
    requires least { vec_len heard.old < 2 ^ 32 }
    requires none { posts.old.items ≡ [] }
    ensures played { (theirs : HostT) → AreHosts moment.entry end.side own.old theirs → IsPlayedBy moment.entry (Read end len) result posts.new.items end.side own.new theirs }
    ensures heard { heard.new.items ≡ heard.old.items ++ told_bytes (told_at moment.entry (Read end len)) }
    ensures capacity { vec_capacity heard.old ≤ vec_capacity heard.new }
{
    let answer = own.core.would_read(end.s, len);
    let from = heard.len();
    lengthen(heard, count_of(answer));
    let entry = moment.history.len() as u32 + 1;
    read_up(own, entry, end.s, &mut heard[from..], posts);
    reply_to(answer, from as u32)
}

/// The bytes of the payload that a write names.
fn bytes_of(payload: &[u8], at: u32, len: u32) -> &[u8]
    requires { at + len ≤ length payload.now }
    ensures { result.now ≡ take len (drop at payload.now) }
{
    &payload[at as usize..][..len as usize]
}

/// An established end takes bytes, and what is due then is sent.
fn write_up(
    own: &mut Host,
    entry: u32,
    s: u32,
    bytes: &[u8],
    posts: &mut ArrayVec<Post, 6>,
) -> Reply
    requires may { MayCall s (Writes bytes.now) own.old }
    requires none { posts.old.items ≡ [] }
    ensures told { (m : Manager Half) → Represents own.old.core m → Plain result ≡ told_by_end s (Writes bytes.now) [] m }
    ensures called { (m : Manager Half) → Represents own.old.core m → IsCalledAt s (Writes bytes.now) entry m own.old own.new posts.new.items }
{
    let reply = own.core.write(s, bytes, posts);
    own.send(entry, posts);
    reply
}

/// An established end hands out bytes, and what is due then is sent.
fn read_up(
    own: &mut Host,
    entry: u32,
    s: u32,
    out: &mut [u8],
    posts: &mut ArrayVec<Post, 6>,
) -> EndReply
    requires may { MayCall s (Reads (length out.old)) own.old }
    requires few { length out.old < 2 ^ 32 }
    requires none { posts.old.items ≡ [] }
    ensures told { (m : Manager Half) → Represents own.old.core m → Answers m.records.terms.size (Reads (length out.old)) (half_at s m.records) result }
    ensures out { out.new ≡ handed_out result (route_at s own.old.core.records) own.old.core ++ drop (length (handed_out result (route_at s own.old.core.records) own.old.core)) out.old }
    ensures called { (m : Manager Half) → Represents own.old.core m → IsCalledAt s (Reads (length out.old)) entry m own.old own.new posts.new.items }
{
    let answer = own.core.read(s, out, posts);
    own.send(entry, posts);
    answer
}

/// An end that has fallen back puts bytes into its stream.
fn write_fallen(flows: &mut Vec<Outflow>, s: u32, bytes: &[u8]) -> Reply
    requires socket { s < length flows.old.items }
    requires few { length bytes.now < 2 ^ 32 }
    ensures told { result ≡ fallen_write false (free (outflow_at s flows.old.items).bytes) (length bytes.now) Open }
    ensures flows { flows.new.items ≡ slice_set flows.old.items s (takes_in bytes.now (outflow_at s flows.old.items)) }
{
    let count = flows[s as usize].bytes.put(bytes);
    if count == 0 && !bytes.is_empty() {
        return Reply::Full;
    }
    Reply::Wrote(count)
}

/// An end that has fallen back takes bytes out of its peer's stream.
fn read_fallen(flows: &mut Vec<Outflow>, s: u32, len: u32, heard: &mut Vec<u8>) -> Reply
    requires socket { s < length flows.old.items }
    requires room { vec_len heard.old + handed (fallen_read false (outflow_at s flows.old.items).bytes.held len Open) ≤ vec_capacity heard.old }
    requires least { vec_len heard.old < 2 ^ 32 }
    ensures told { result ≡ reply_of (vec_len heard.old) (fallen_read false (outflow_at s flows.old.items).bytes.held len Open) }
    ensures heard { heard.new.items ≡ heard.old.items ++ told_bytes (fallen_read false (outflow_at s flows.old.items).bytes.held len Open) }
    ensures flows { flows.new.items ≡ hands_over s (fallen_read false (outflow_at s flows.old.items).bytes.held len Open) flows.old.items }
    ensures capacity { vec_capacity heard.old ≤ vec_capacity heard.new }
{
    let count = held(flows, s).min(len);
    if count == 0 && len > 0 {
        return Reply::Empty;
    }
    let from = heard.len();
    lengthen(heard, count);
    flows[s as usize].bytes.take(&mut heard[from..]);
    Reply::Bytes {
        from: from as u32,
        len: count,
    }
}

/// How many bytes stand in the stream of a socket.
fn held(flows: &Vec<Outflow>, s: u32) -> u32
    requires { s < length flows.now.items }
    ensures { result ≡ length (outflow_at s flows.now.items).bytes.held }
{
    flows[s as usize].bytes.held()
}

/// Adds as many places, for which there is room.
fn lengthen(bytes: &mut Vec<u8>, count: u32)
    requires { vec_len bytes.old + count ≤ vec_capacity bytes.old }
    ensures items { bytes.new.items ≡ bytes.old.items ++ replicate count 0 }
    ensures capacity { vec_capacity bytes.old ≤ vec_capacity bytes.new }
{
    let len = bytes.len() + count as usize;
    match bytes.resize(len, 0) {
        Ok(()) => {}
        Err(_) => unreachable!(),
    }
}

/// How many bytes an answer of an end hands out.
fn count_of(answer: EndReply) -> u32
    ensures { result ≡ taken answer }
{
    match answer {
        EndReply::Take { len, .. } => len,
        _ => 0,
    }
}

/// The reply to a read that an end answers so, where so many bytes were handed out before.
fn reply_to(answer: EndReply, before: u32) -> Reply
    ensures { result ≡ replied answer before }
{
    match answer {
        EndReply::Take { len, .. } => Reply::Bytes { from: before, len },
        EndReply::Wrote(count) => Reply::Wrote(count),
        EndReply::Full => Reply::Full,
        EndReply::Empty => Reply::Empty,
        EndReply::End => Reply::End,
        EndReply::Ended => Reply::Ended,
        EndReply::Done => Reply::Done,
        EndReply::Reset(cause) => Reply::Reset(cause),
    }
}

//! A socket is opened, and its hosts take each other's CLC messages.
ghost use Rattle.std.specs.Prelude.{◌≡◌, ◌<◌, ◌≤◌, ◌^◌, length, [], Some};
ghost use Rattle.smc_num.specs.declared.Side.{Side as SideT};
ghost use Rattle.smc_num.specs.declared.Side.TheVariants.{A};
ghost use Rattle.smc_num.specs.Names.{other};
ghost use Rattle.clc_wire.specs.Clc.{clc_length};
ghost use Rattle.pipe_model.specs.declared.event.Event.TheVariants.{Open, Clc};
ghost use Rattle.pipe_model.specs.Ends.{Half};
ghost use Rattle.side_core.specs.Manager.{Manager, Represents, state_at};
ghost use Rattle.side_core.specs.Taking.{with_desk};
ghost use Rattle.world_core.specs.Handing.{due_on, has_end, hands_over, is_taken_on, link_made_by, makes_at, MayMake};
ghost use Rattle.world_core.specs.Hosts.{AreHosts, IsPlayedBy, past_of, paths_after};

use crate::host::{Host, Untaken};
use crate::moment::Moment;
use arrayvec::ArrayVec;
use clc_handshake::EndState;
use pipe_model::{ClcMessage, Lack, LinkId, Post, Reply, SentKind};
use side_core::SideCore;

/// A socket is opened: the client proposes, or, where a side is not capable, both ends fall back.
pub fn open(
    client: &mut Host,
    server: &mut Host,
    moment: Moment<'_>,
    s: u32,
    posts: &mut ArrayVec<Post, 6>,
) -> Reply
    requires hosts { AreHosts moment A client.old server.old }
    requires few { length moment.history.now < 2 ^ 18 }
    requires socket { s < moment.setup.now.sockets }
    requires none { posts.old.items ≡ [] }
    ensures { IsPlayedBy moment.entry (Open s) result posts.new.items A client.new server.new }
{
    if is_opened(&client.core, s) {
        return Reply::NameUsed;
    }
    let [a, b] = moment.setup.capable;
    if a && b {
        client.core.open(s, false, posts);
        server.core.open(s, false, posts);
        client.send(moment.history.len() as u32 + 1, posts.as_slice());
        Reply::Opened
    } else {
        client.core.fall_back(s);
        server.core.fall_back(s);
        Reply::Declined(Lack::NotCapable { a, b })
    }
}

/// Whether the socket of an end was opened.
fn is_opened(core: &SideCore, s: u32) -> bool
    ensures { result ≡ has_end (state_at s core.now) }
{
    !matches!(core.end_state(s), EndState::Absent)
}

/// Whether an end would take the next CLC message of its peer on a socket: there is one, and it would not
/// be held.
pub fn would_take(own: &Host, theirs: &Host, s: u32, paths: &[bool]) -> bool
    requires socket { s < length theirs.now.flows.items }
    requires paths { length paths.now ≡ 1 }
    ensures { result ≡ is_taken_on s paths.now own.now.core theirs.now.flows.items }
{
    match due(own, theirs, s) {
        Some(next) => !own.core.would_hold(s, &next.message, paths),
        None => false,
    }
}

/// The CLC message that the end of a socket is to take.
fn due(own: &Host, theirs: &Host, s: u32) -> Option<Untaken>
    requires { s < length theirs.now.flows.items }
    ensures { result ≡ due_on s own.now.core theirs.now.flows.items }
{
    match own.core.end_state(s) {
        EndState::Clc => theirs.flows[s as usize].next,
        _ => None,
    }
}

/// A host takes the next CLC message of its peer on a socket, if there is one. A message that is held stays.
pub fn take(
    own: &mut Host,
    theirs: &mut Host,
    moment: Moment<'_>,
    s: u32,
    posts: &mut ArrayVec<Post, 6>,
) -> Reply
    requires hosts { (dir : SideT) × AreHosts moment (other dir) own.old theirs.old }
    requires few { length moment.history.now < 2 ^ 18 }
    requires socket { s < moment.setup.now.sockets }
    requires paths { moment.paths.now ≡ paths_after moment.setup.now (past_of moment) }
    requires none { posts.old.items ≡ [] }
    ensures { (dir : SideT) → AreHosts moment.entry (other dir) own.old theirs.old → IsPlayedBy moment.entry (Clc s dir) result posts.new.items (other dir) own.new theirs.new }
{
    match due(own, theirs, s) {
        Some(next) => take_next(own, theirs, moment, s, &next, posts),
        None => Reply::Idle,
    }
}

/// A host takes this CLC message of its peer.
fn take_next(
    own: &mut Host,
    theirs: &mut Host,
    moment: Moment<'_>,
    s: u32,
    next: &Untaken,
    posts: &mut ArrayVec<Post, 6>,
) -> Reply
    requires hosts { (dir : SideT) × AreHosts moment (other dir) own.old theirs.old }
    requires few { length moment.history.now < 2 ^ 18 }
    requires socket { s < moment.setup.now.sockets }
    requires paths { moment.paths.now ≡ paths_after moment.setup.now (past_of moment) }
    requires due { due_on s own.old.core theirs.old.flows.items ≡ Some next.now }
    requires none { posts.old.items ≡ [] }
    ensures { (dir : SideT) → AreHosts moment.entry (other dir) own.old theirs.old → IsPlayedBy moment.entry (Clc s dir) result posts.new.items (other dir) own.new theirs.new }
{
    let reply = own
        .core
        .take_clc(s, &next.message, next.link, moment.paths, posts);
    if let Reply::Held(_) = reply {
        return reply;
    }
    hand_over(theirs, s, next, reply);
    own.send(moment.history.len() as u32 + 1, posts.as_slice());
    reply
}

/// A message leaves the stream of its sender, at which the link is made too where the client has confirmed
/// in first contact.
fn hand_over(host: &mut Host, s: u32, next: &Untaken, reply: Reply)
    requires socket { s < length host.old.flows.items }
    requires made { MayMake (link_made_by reply next.now.link) host.old.core.desk }
    ensures core { (m : Manager Half) → Represents host.old.core m → Represents host.new.core (with_desk (makes_at (link_made_by reply next.now.link)) m) }
    ensures wires { host.new.wires.items ≡ host.old.wires.items }
    ensures flows { host.new.flows.items ≡ hands_over s next.now.message host.old.flows.items }
{
    let flow = &mut host.flows[s as usize];
    let mut bytes = [0; 68];
    flow.bytes.take(&mut bytes[..length_of(&next.message)]);
    flow.next = None;
    if let (Reply::Sent(SentKind::Confirm), Some(link)) = (reply, next.link) {
        host.core.link_made(link);
    }
}

/// The length of a message, as it is written.
fn length_of(message: &ClcMessage) -> usize
    ensures length { result ≡ clc_length message.now }
    ensures most { result ≤ 68 }
{
    match message {
        ClcMessage::Proposal(_) => 52,
        ClcMessage::Accept(_) | ClcMessage::Confirm(_) => 68,
        ClcMessage::Decline(_) => 28,
    }
}

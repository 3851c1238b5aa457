//! What moves on the link: a post lands at the peer, and completes at its sender.
ghost use Rattle.std.specs.Prelude.{◌≡◌, ◌<◌, ◌+◌, ◌^◌, length, true, [], ◌-◌, false, slice_index_or};
ghost use Rattle.smc_num.specs.Links.{is_standing, phase_at};
ghost use Rattle.pipe_model.specs.declared.event.Event.TheVariants.{Deliver, Complete};
ghost use Rattle.pipe_model.specs.declared.reply.Reply.TheVariants.{Landed, Completed};
ghost use Rattle.smc_num.specs.declared.Side.{Side as SideT};
ghost use Rattle.world_core.specs.declared.host.Host.{Host as HostT};
ghost use Rattle.world_core.specs.declared.moment.Moment.{Moment as MomentT};
ghost use Rattle.world_core.specs.Hosts.{AreHosts, IsPlayedBy};
ghost use Rattle.world_core.specs.Leaving.{HasLanded, HasCompleted, is_write_post, is_cdc_post, is_llc_post};

use crate::host::Host;
use crate::moment::Moment;
use crate::wires;
use arrayvec::ArrayVec;
use pipe_model::{LinkPhase, LinkView, Post, Reply};
use rc_link::InFlight;
use side_core::SideCore;

/// The next post of a host lands: the bytes of a write stand in the RMB of its peer, and a message is taken
/// there.
pub fn deliver(
    own: &mut Host,
    theirs: &mut Host,
    moment: Moment<'_>,
    slot: u8,
    posts: &mut ArrayVec<Post, 6>,
) -> Reply
    requires hosts { (x : SideT) × AreHosts moment x own.old theirs.old }
    requires few { length moment.history.now < 2 ^ 18 }
    requires slot { slot ≡ 1 }
    requires none { posts.old.items ≡ [] }
    ensures { (x : SideT) → AreHosts moment.entry x own.old theirs.old → IsPlayedBy moment.entry (Deliver slot x) result posts.new.items x own.new theirs.new }
{
    match wires::land(&mut own.wires, slot) {
        Some(landed) => land(own, theirs, moment, landed, posts),
        None => Reply::Idle,
    }
}

/// A post that has just landed is taken at the peer.
fn land(
    own: &Host,
    theirs: &mut Host,
    moment: Moment<'_>,
    landed: InFlight,
    posts: &mut ArrayVec<Post, 6>,
) -> Reply
    requires landed { (x : SideT) × HasLanded moment x landed own.now theirs.old }
    requires few { length moment.history.now < 2 ^ 18 }
    requires none { posts.old.items ≡ [] }
    ensures { (x : SideT) → HasLanded moment.entry x landed own.now theirs.old → IsPlayedBy moment.entry (Deliver 1 x) result posts.new.items x own.now theirs.new }
{
    match landed.post {
        Post::Write { .. } => {
            land_write(own, theirs, landed);
            Reply::Landed(landed.at)
        }
        Post::Cdc { .. } => land_cdc(theirs, moment, landed, posts),
        Post::Llc { .. } => {
            land_llc(own, theirs, moment, landed, posts);
            Reply::Landed(landed.at)
        }
        Post::Clc { .. } => unreachable!(),
    }
}

/// The bytes of a write stand in the RMB of the peer. The CDC message that follows it names their end.
fn land_write(own: &Host, theirs: &mut Host, landed: InFlight)
    requires landed { (at : MomentT) × (x : SideT) × HasLanded at x landed own.now theirs.old × (length at.history.now < 2 ^ 18) }
    requires write { is_write_post landed.post ≡ true }
    ensures { (at : MomentT) (x : SideT) → HasLanded at x landed own.now theirs.old → length at.history.now < 2 ^ 18 → IsPlayedBy at (Deliver 1 x) (Landed landed.at) [] x own.now theirs.new }
{
    let Post::Write {
        link,
        key,
        address,
        len,
        ..
    } = landed.post
    else {
        unreachable!()
    };
    let Some(message) = wires::next_cdc(&own.wires, link.slot) else {
        unreachable!()
    };
    let (front, back) = own.core.outgoing(message.token, address, len);
    theirs.core.land_write(link, key, address, front, back);
}

/// A CDC message is taken by the end that its token names.
fn land_cdc(
    theirs: &mut Host,
    moment: Moment<'_>,
    landed: InFlight,
    posts: &mut ArrayVec<Post, 6>,
) -> Reply
    requires landed { (x : SideT) × (own : HostT) × HasLanded moment x landed own theirs.old }
    requires few { length moment.history.now < 2 ^ 18 }
    requires message { is_cdc_post landed.post ≡ true }
    requires none { posts.old.items ≡ [] }
    ensures { (x : SideT) (own : HostT) → HasLanded moment.entry x landed own theirs.old → IsPlayedBy moment.entry (Deliver 1 x) result posts.new.items x own theirs.new }
{
    let Post::Cdc { link, message, .. } = landed.post else {
        unreachable!()
    };
    let dropped = theirs.core.land_cdc(link, &message, &landed.plain, posts);
    theirs.send(moment.history.len() as u32 + 1, posts.as_slice());
    match dropped {
        Some(token) => Reply::Dropped(token),
        None => Reply::Landed(landed.at),
    }
}

/// CONFIRM LINK, or the reply to it, is taken.
fn land_llc(
    own: &Host,
    theirs: &mut Host,
    moment: Moment<'_>,
    landed: InFlight,
    posts: &mut ArrayVec<Post, 6>,
)
    requires landed { (x : SideT) × HasLanded moment x landed own.now theirs.old }
    requires few { length moment.history.now < 2 ^ 18 }
    requires message { is_llc_post landed.post ≡ true }
    requires none { posts.old.items ≡ [] }
    ensures { (x : SideT) → HasLanded moment.entry x landed own.now theirs.old → IsPlayedBy moment.entry (Deliver 1 x) (Landed landed.at) posts.new.items x own.now theirs.new }
{
    let Post::Llc { link, message, .. } = landed.post else {
        unreachable!()
    };
    let view = LinkView {
        path_up: is_up(moment.paths, link.slot),
        stands_here: knows_link(&theirs.core),
        stands_there: knows_link(&own.core),
    };
    theirs.core.land_llc(link, &message, &view, posts);
    theirs.send(moment.history.len() as u32 + 1, posts.as_slice());
}

/// Whether the path of a slot is up.
fn is_up(paths: &[bool], slot: u8) -> bool
    ensures { result ≡ slice_index_or paths.now (slot - 1) false }
{
    match paths.get((slot as usize).saturating_sub(1)) {
        Some(up) => *up,
        None => false,
    }
}

/// Whether the link stands at a side.
fn knows_link(core: &SideCore) -> bool
    ensures { result ≡ is_standing (phase_at 1 core.now.desk.links.known) }
{
    matches!(core.phase(1), LinkPhase::Pending | LinkPhase::Live)
}

/// The oldest landed post of a host completes there.
pub fn complete(
    own: &mut Host,
    moment: Moment<'_>,
    slot: u8,
    posts: &mut ArrayVec<Post, 6>,
) -> Reply
    requires hosts { (x : SideT) × (theirs : HostT) × AreHosts moment x own.old theirs }
    requires few { length moment.history.now < 2 ^ 18 }
    requires slot { slot ≡ 1 }
    requires none { posts.old.items ≡ [] }
    ensures { (x : SideT) (theirs : HostT) → AreHosts moment.entry x own.old theirs → IsPlayedBy moment.entry (Complete slot x) result posts.new.items x own.new theirs }
{
    let Some(done) = wires::complete(&mut own.wires, slot) else {
        return Reply::Idle;
    };
    finish(own, moment, done, posts);
    Reply::Completed(done.at)
}

/// A post that has just completed is made known to the end that sent it, where it is a CDC message.
fn finish(own: &mut Host, moment: Moment<'_>, done: InFlight, posts: &mut ArrayVec<Post, 6>)
    requires completed { (x : SideT) × (theirs : HostT) × HasCompleted moment x done own.old theirs }
    requires few { length moment.history.now < 2 ^ 18 }
    requires none { posts.old.items ≡ [] }
    ensures { (x : SideT) (theirs : HostT) → HasCompleted moment.entry x done own.old theirs → IsPlayedBy moment.entry (Complete 1 x) (Completed done.at) posts.new.items x own.new theirs }
{
    if let Post::Cdc { link, message, .. } = done.post {
        own.core.complete(link, &message, &done.plain, posts);
        own.send(moment.history.len() as u32 + 1, posts.as_slice());
    }
}

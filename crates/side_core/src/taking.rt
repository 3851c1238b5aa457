//! What a side does with a CLC message: step by step of the handshake (RFC 7609, section 3.5).
ghost use Rattle.smc_num.specs.Places.{rmb_at};
ghost use Rattle.side_core.specs.Setups.{CanBegin, CanStart};
ghost use Rattle.side_core.specs.Records.{begins, conn_at, route_at};
ghost use Rattle.side_core.specs.Fit.{Allows, IsOneSlot, beside};
ghost use Rattle.side_core.specs.Desk.{first_link, lends_next, made_on, pair_at};
ghost use Rattle.side_core.specs.Acting.{IsSoundAt, risen_at, way_of};
ghost use Rattle.pipe_model.specs.declared.post.Post.TheVariants.{Clc, Llc};
ghost use Rattle.pipe_model.specs.Messages.{confirm_link, refusal};
ghost use Rattle.element_ledger.specs.Lendings.{IsLent};
ghost use Rattle.clc_wire.specs.declared.message.ClcMessage.TheVariants.{Accept, Confirm, Decline as DeclineMessage};
ghost use Rattle.std.specs.Prelude.{if◌then◌else◌, IfSome, IsSomeAnd, Bool, List, ◌≡◌, ◌++◌, ◌∷◌, ◌≤◌, ◌<◌, ◌==◌, ◌-◌, ◌^◌, ◌+◌, All, false, true, length, [], None, Some, IsSome, not, IfSome, IsSomeAnd, List, Bool};
ghost use Rattle.smc_num.specs.Links.{live_links, first_live};
ghost use Rattle.clc_handshake.specs.Stages.{named_group};
ghost use Rattle.pipe_model.specs.Ends.{Half};
ghost use Rattle.pipe_model.specs.Replies.{step_told, ready_told};
ghost use Rattle.pipe_model.specs.declared.verdict.ClcStep.TheVariants.{SendConfirm, Ready};
ghost use Rattle.side_core.specs.Manager.{IsWorking, Manager, Works};
ghost use Rattle.side_core.specs.Taking.{IsOffer, accepts, asks_link, by_verdict, confirm_posts, confirmed_posts, confirms_by, first_confirms, hears, is_ready, later_confirms, offer_for, offered_link, quits, readies_by, ready_posts, rises_at, starts, verdict_posts, verdict_risen};

use crate::connections::Connections;
use crate::desk::Desk;
use crate::messages;
use crate::route::{Route, Way};
use arrayvec::ArrayVec;
use pipe_model::{
    ClcMessage, ClcStep, Hold, Lack, LinkId, Offer, Post, Reply, ResetCause, SentKind,
};

/// How the end of a route may post now.
pub fn way(desk: &Desk, route: &Route) -> Way
    requires { IfSome route.now.peer (λ o. rmb_at o.address < 256) }
    ensures { result ≡ way_of desk.now route.now }
{
    let key = match route.peer {
        Some(offer) => desk.peer_key(offer.address, route.link),
        None => 0,
    };
    Way {
        side: desk.side(),
        live: route.up && desk.is_live(route.link),
        key,
    }
}

/// The reply to a step with a message.
pub fn told(step: ClcStep, message: &ClcMessage) -> Reply
    ensures { result ≡ step_told (named_group message.now) message.now step }
{
    match step {
        ClcStep::SendAccept { .. } => Reply::Sent(SentKind::Accept),
        ClcStep::SendConfirm { first: true } => Reply::Sent(SentKind::Confirm),
        ClcStep::SendConfirm { first: false } => Reply::Established,
        ClcStep::AskKey => Reply::Sent(SentKind::ConfirmRkey),
        ClcStep::Wait(hold) => Reply::Held(hold),
        ClcStep::Decline(lack) => Reply::Declined(lack),
        ClcStep::Fell => Reply::FellBack,
        ClcStep::Ready => ready_told(message),
        ClcStep::Lost => Reply::Reset(ResetCause::NoLiveLink {
            group: named_group(message),
        }),
        ClcStep::Wrong(kind) => Reply::Reset(ResetCause::BadStep(kind)),
    }
}

/// The reply where an end is ready for a message.
fn ready_told(message: &ClcMessage) -> Reply
    ensures { result ≡ ready_told message.now }
{
    match message {
        ClcMessage::Confirm(offer) if offer.first => Reply::Sent(SentKind::ConfirmLink),
        ClcMessage::Confirm(_) => Reply::Established,
        _ => Reply::Idle,
    }
}

/// The group that an offer names: its packet sequence number carries it.
fn named_group(message: &ClcMessage) -> u32
    ensures { result ≡ named_group message.now }
{
    match message {
        ClcMessage::Accept(offer) | ClcMessage::Confirm(offer) => offer.psn,
        ClcMessage::Proposal(_) | ClcMessage::Decline(_) => 0,
    }
}

/// A post of an offer, in an Accept or a Confirm.
fn push_clc(
    posts: &mut ArrayVec<Post, 6>,
    desk: &Desk,
    s: u32,
    link: Option<LinkId>,
    message: ClcMessage,
)
    requires { length posts.old.items ≤ 5 }
    ensures { posts.new.items ≡ posts.old.items ++ Clc desk.now.side s link message ∷ [] }
{
    posts.push(Post::Clc {
        from: desk.side(),
        s,
        link,
        message,
    });
}

/// The lowest free element is lent to a new connection of a socket, on a link.
fn start(desk: &mut Desk, connections: &mut Connections, s: u32, link: LinkId)
    requires free { CanStart s desk.old connections.old }
    ensures desk { desk.new ≡ lends_next s desk.old }
    ensures works { (m : Manager Half) → Works desk.old connections.old m → Works desk.new connections.new (starts s link m) }
{
    let element = desk.lend(s);
    connections.begin(s, link, element);
}

/// The server offers the lowest free element in first contact, on a link of its next group.
fn accept_first(
    desk: &mut Desk,
    connections: &mut Connections,
    s: u32,
    paths: &[bool],
    posts: &mut ArrayVec<Post, 6>,
)
    requires can { CanStart s desk.old connections.old }
    requires begins { CanBegin desk.old }
    requires paths { length paths.now ≡ 1 }
    requires room { length posts.old.items ≤ 2 }
    ensures works { (m : Manager Half) → Works desk.old connections.old m → Works desk.new connections.new (accepts s true (first_link paths.now m.desk) m) }
    ensures posts { (m : Manager Half) → Works desk.old connections.old m
        → posts.new.items ≡ posts.old.items ++ Clc m.desk.side s (Some (first_link paths.now m.desk)) (Accept (offer_for true (first_link paths.now m.desk) m)) ∷ [] }
{
    let link = desk.first_link(paths);
    let offer = desk.begin(s, link, connections.tokens() + 1);
    start(desk, connections, s, link);
    push_clc(posts, desk, s, Some(link), ClcMessage::Accept(offer));
}

/// The server offers the lowest free element in later contact, on the live link with the fewest
/// connections: the one of the one slot.
fn accept_later(
    desk: &mut Desk,
    connections: &mut Connections,
    s: u32,
    posts: &mut ArrayVec<Post, 6>,
)
    requires can { CanStart s desk.old connections.old }
    requires begun { (desk.old.group == 0) ≡ false }
    requires live { IsSome (first_live desk.old.links.known) }
    requires slot { IsOneSlot desk.old.links.known }
    requires room { length posts.old.items ≤ 2 }
    ensures works { (m : Manager Half) (paths : List Bool) → Works desk.old connections.old m → Works desk.new connections.new (accepts s false (offered_link false paths m) m) }
    ensures posts { (m : Manager Half) (paths : List Bool) → Works desk.old connections.old m
        → posts.new.items ≡ posts.old.items ++ Clc m.desk.side s (Some (offered_link false paths m)) (Accept (offer_for false (offered_link false paths m) m)) ∷ [] }
{
    let Some(link) = desk.lowest_link() else {
        unreachable!()
    };
    let offer = desk.offer(false, link, connections.tokens() + 1);
    start(desk, connections, s, link);
    push_clc(posts, desk, s, Some(link), ClcMessage::Accept(offer));
}

/// The client takes an Accept of first contact: a group begins with the link that it names.
fn confirm_first(
    desk: &mut Desk,
    connections: &mut Connections,
    s: u32,
    link: LinkId,
    offer: &Offer,
    posts: &mut ArrayVec<Post, 6>,
)
    requires can { CanStart s desk.old connections.old }
    requires begins { CanBegin desk.old }
    requires heard { IsOffer offer.now link (beside desk.old connections.old) }
    requires next { link.incarnation ≡ made_on link.slot desk.old + 1 }
    requires working { IsWorking desk.old connections.old }
    requires room { length posts.old.items ≤ 2 }
    ensures works { (m : Manager Half) → Works desk.old connections.old m → Works desk.new connections.new (first_confirms s link offer.now m) }
    ensures posts { (m : Manager Half) → Works desk.old connections.old m
        → posts.new.items ≡ posts.old.items ++ Clc m.desk.side s (Some link) (Confirm (offer_for true link m)) ∷ [] }
{
    let own = desk.begin(s, link, connections.tokens() + 1);
    desk.make_link(link);
    desk.learn(link, offer);
    start(desk, connections, s, link);
    connections.aim(s, offer);
    push_clc(posts, desk, s, Some(link), ClcMessage::Confirm(own));
}

/// The client takes another Accept: its end is established.
fn confirm_later(
    desk: &mut Desk,
    connections: &mut Connections,
    s: u32,
    link: LinkId,
    offer: &Offer,
    posts: &mut ArrayVec<Post, 6>,
)
    requires can { CanStart s desk.old connections.old }
    requires begun { (desk.old.group == 0) ≡ false }
    requires heard { IsOffer offer.now link (beside desk.old connections.old) }
    requires working { IsWorking desk.old connections.old }
    requires room { length posts.old.items ≤ 2 }
    ensures works { (m : Manager Half) → Works desk.old connections.old m → Works desk.new connections.new (later_confirms s link offer.now m) }
    ensures posts { (m : Manager Half) → Works desk.old connections.old m
        → posts.new.items ≡ posts.old.items ++ (Clc m.desk.side s (Some link) (Confirm (offer_for false link m)) ∷ risen_at s (hears s offer.now (starts s link m))) }
{
    let own = desk.offer(false, link, connections.tokens() + 1);
    start(desk, connections, s, link);
    connections.aim(s, offer);
    push_clc(posts, desk, s, Some(link), ClcMessage::Confirm(own));
    rise(desk, connections, s, posts);
}

/// The server takes a Confirm: in first contact it asks the client to confirm the link, and later its
/// end is established.
fn be_ready(
    desk: &mut Desk,
    connections: &mut Connections,
    s: u32,
    link: LinkId,
    offer: &Offer,
    posts: &mut ArrayVec<Post, 6>,
)
    requires route { IsSomeAnd (route_at s connections.old) (λ r. (r.link ≡ link) × (r.peer ≡ None)) }
    requires heard { IsOffer offer.now link (beside desk.old connections.old) }
    requires sound { IsSoundAt connections.old.terms.size (conn_at s connections.old) }
    requires working { IsWorking desk.old connections.old }
    requires room { length posts.old.items ≤ 2 }
    ensures works { (m : Manager Half) → Works desk.old connections.old m → Works desk.new connections.new (is_ready s link offer.now m) }
    ensures posts { (m : Manager Half) → Works desk.old connections.old m
        → posts.new.items ≡ posts.old.items ++ (asks_link link (Confirm offer.now) m ++ (if offer.now.first then [] else risen_at s (hears s offer.now m))) }
{
    if offer.first {
        desk.learn(link, offer);
        connections.aim(s, offer);
        ask_link(desk, link, posts);
        return;
    }
    connections.aim(s, offer);
    rise(desk, connections, s, posts);
}

/// CONFIRM LINK for a link.
fn ask_link(desk: &Desk, link: LinkId, posts: &mut ArrayVec<Post, 6>)
    requires room { length posts.old.items ≤ 5 }
    requires slot { (1 ≤ link.slot) × (link.slot ≤ 8) }
    ensures { posts.new.items ≡ posts.old.items ++ Llc desk.now.side link (confirm_link desk.now.setup desk.now.side false link (pair_at link.slot desk.now)) ∷ [] }
{
    posts.push(Post::Llc {
        from: desk.side(),
        link,
        message: messages::confirm_link(
            desk.setup(),
            desk.side(),
            false,
            link,
            desk.pair(link.slot),
        ),
    });
}

/// The end of a socket is established on the link of its route, and posts what became due before.
pub fn rise(desk: &Desk, connections: &mut Connections, s: u32, posts: &mut ArrayVec<Post, 6>)
    requires there { IsSomeAnd (route_at s connections.old) (λ r. IsSomeAnd r.peer (λ o. rmb_at o.address < 256)) }
    requires sound { IsSoundAt connections.old.terms.size (conn_at s connections.old) }
    requires room { length posts.old.items ≤ 3 }
    ensures works { (m : Manager Half) → Works desk.now connections.old m → Works desk.now connections.new (rises_at s m) }
    ensures posts { (m : Manager Half) → Works desk.now connections.old m → posts.new.items ≡ posts.old.items ++ risen_at s m }
{
    let Some(route) = connections.route(s) else {
        return;
    };
    let way = way(desk, &Route { up: true, ..route });
    connections.rise(s, way, posts);
}

/// A connection that has left its handshake gives its element back, where it has one.
fn quit(desk: &mut Desk, connections: &mut Connections, s: u32)
    requires { IfSome (route_at s connections.old) (λ r. IsLent r.element desk.old.rows) }
    ensures works { (m : Manager Half) → Works desk.old connections.old m → Works desk.new connections.new (quits s m) }
{
    if let Some(route) = connections.route(s) {
        connections.leave(s);
        desk.take_back(route.element);
    }
}

/// The side declines, and goes on over TCP alone.
fn decline(desk: &Desk, s: u32, lack: Lack, posts: &mut ArrayVec<Post, 6>)
    requires { length posts.old.items ≤ 5 }
    ensures { posts.new.items ≡ posts.old.items ++ Clc desk.now.side s None (DeclineMessage (refusal desk.now.side lack)) ∷ [] }
{
    let refusal = messages::refusal(desk.side(), lack);
    push_clc(posts, desk, s, None, ClcMessage::Decline(refusal));
}

/// The client takes an Accept.
fn confirm(
    desk: &mut Desk,
    connections: &mut Connections,
    s: u32,
    first: bool,
    message: &ClcMessage,
    link: LinkId,
    posts: &mut ArrayVec<Post, 6>,
)
    requires may { Allows s (SendConfirm first) message.now link [] desk.old connections.old }
    requires working { IsWorking desk.old connections.old }
    requires room { length posts.old.items ≤ 2 }
    ensures works { (m : Manager Half) → Works desk.old connections.old m → Works desk.new connections.new (confirms_by s first message.now link m) }
    ensures posts { (m : Manager Half) → Works desk.old connections.old m
        → posts.new.items ≡ posts.old.items ++ (confirm_posts s first message.now link m ++ confirmed_posts s first message.now link m) }
{
    match message {
        ClcMessage::Accept(offer) if first => confirm_first(
            desk,
            connections,
            s,
            link,
            offer,
            posts,
        ),
        ClcMessage::Accept(offer) => confirm_later(desk, connections, s, link, offer, posts),
        _ => {}
    }
}

/// The server takes a Confirm.
fn take_confirm(
    desk: &mut Desk,
    connections: &mut Connections,
    s: u32,
    message: &ClcMessage,
    link: LinkId,
    posts: &mut ArrayVec<Post, 6>,
)
    requires may { Allows s Ready message.now link [] desk.old connections.old }
    requires working { IsWorking desk.old connections.old }
    requires room { length posts.old.items ≤ 2 }
    ensures works { (m : Manager Half) → Works desk.old connections.old m → Works desk.new connections.new (readies_by s message.now link m) }
    ensures posts { (m : Manager Half) → Works desk.old connections.old m
        → posts.new.items ≡ posts.old.items ++ (asks_link link message.now m ++ ready_posts s message.now m) }
{
    match message {
        ClcMessage::Confirm(offer) => be_ready(desk, connections, s, link, offer, posts),
        _ => {}
    }
}

/// Carries out a step of the handshake with a message about a link.
pub fn carry_out(
    desk: &mut Desk,
    connections: &mut Connections,
    s: u32,
    step: ClcStep,
    message: &ClcMessage,
    link: LinkId,
    paths: &[bool],
    posts: &mut ArrayVec<Post, 6>,
)
    requires may { Allows s step message.now link paths.now desk.old connections.old }
    requires working { IsWorking desk.old connections.old }
    requires room { length posts.old.items ≤ 2 }
    ensures works { (m : Manager Half) → Works desk.old connections.old m → Works desk.new connections.new (by_verdict s message.now link paths.now m step) }
    ensures posts { (m : Manager Half) → Works desk.old connections.old m
        → posts.new.items ≡ posts.old.items ++ (verdict_posts s message.now link paths.now m step ++ verdict_risen s message.now link m step) }
{
    match step {
        ClcStep::SendAccept { first: true } => accept_first(desk, connections, s, paths, posts),
        ClcStep::SendAccept { first: false } => accept_later(desk, connections, s, posts),
        ClcStep::SendConfirm { first } => confirm(
            desk,
            connections,
            s,
            first,
            message,
            link,
            posts,
        ),
        ClcStep::Ready => take_confirm(desk, connections, s, message, link, posts),
        ClcStep::Decline(lack) => {
            decline(desk, s, lack, posts);
            quit(desk, connections, s);
        }
        ClcStep::Fell | ClcStep::Lost | ClcStep::Wrong(_) => quit(desk, connections, s),
        ClcStep::AskKey | ClcStep::Wait(_) => {}
    }
}

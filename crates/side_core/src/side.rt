//! The manager of one side (RFC 7609): what its applications call, and what the messages and writes of its
//! peer make of it.
ghost use Rattle.std.specs.Prelude.{◌≡◌, ◌++◌, ◌∷◌, ◌≤◌, ◌<◌, ◌^◌, ◌+◌, ◌-◌, ℕ, false, true, length, map, replicate, slice_set, slice_index_or, [], None, Some, IsSome, IsSomeAnd, IfOk, IfSome, unwrap_or, take as front, drop, option_map, List};
ghost use Rattle.smc_num.specs.Names.{no_link};
ghost use Rattle.smc_num.specs.declared.Side.TheVariants.{A};
ghost use Rattle.smc_num.specs.Links.{link_at, phase_at};
ghost use Rattle.smc_num.specs.Keys.{rmb_bound};
ghost use Rattle.smc_num.specs.Places.{rmb_at};
ghost use Rattle.rmb_region.specs.Regions.{fresh, lands as lands_in, IsInside};
ghost use Rattle.clc_handshake.specs.Stages.{seen_state, after_step};
ghost use Rattle.pipe_model.specs.declared.reply.Reply.{Reply as Says};
ghost use Rattle.pipe_model.specs.declared.sent.Sent.{Sent};
ghost use Rattle.pipe_model.specs.declared.verdict.ClcStep.TheVariants.{AskKey};
ghost use Rattle.pipe_model.specs.declared.post.Post.TheVariants.{Llc};
ghost use Rattle.pipe_model.specs.Calls.{Plain, Writes, Reads};
ghost use Rattle.pipe_model.specs.Connections.{NoEnd, IsUp, WaitsLink};
ghost use Rattle.pipe_model.specs.Ends.{Half, takes, completes};
ghost use Rattle.pipe_model.specs.Flows.{flow_step};
ghost use Rattle.pipe_model.specs.Handshake.{verdict};
ghost use Rattle.pipe_model.specs.Messages.{confirm_link};
ghost use Rattle.pipe_model.specs.Replies.{expects};
ghost use Rattle.conn_end.specs.Told.{Answers, told_of};
ghost use Rattle.side_core.specs.Acting.{IsSoundAt, MayConfirm, MayHand, MayRise, hands_after, posts_after, reply_of_desk, rises_first, MayWrite, acts_at, buffer_of, bytes_land, call_of, confirm_reply, confirming_posts, confirms_link, due_at, handed_from, handed_out, risen_at, way_of};
ghost use Rattle.side_core.specs.Changes.{named};
ghost use Rattle.side_core.specs.Comings.{IsGoingAt};
ghost use Rattle.side_core.specs.Desk.{makes_link, pair_at};
ghost use Rattle.side_core.specs.Landing.{CanMake, CompletesIn, LandsIn, MayCompleteIn, MayGoOut, MayLandIn, dropped, falls_at, is_wait, opening_posts, opens_at, told_at};
ghost use Rattle.side_core.specs.Manager.{Manager, Represents, Works, hand_in, hand_of, new_manager, no_hand, state_at};
ghost use Rattle.side_core.specs.Records.{aimer, conn_at, half_at, holder, route_at};
ghost use Rattle.side_core.specs.Setups.{IsSet};
ghost use Rattle.side_core.specs.Taking.{MayTake, rises_at, takes_message, taking_posts, taking_told, verdict_at, with_desk};

use crate::change::{Change, EndCall};
use crate::connections::Connections;
use crate::desk::Desk;
use crate::messages;
use crate::route::{Route, Way};
use crate::taking::{carry_out, rise, told, way};
use arrayvec::ArrayVec;
use cdc_wire::CdcMessage;
use clc_handshake::{EndState, Handshake};
use conn_end::EndReply;
use llc_wire::LlcMessage;
use pipe_model::{
    ClcMessage, ClcStep, FlowStep, Lacks, LinkId, LinkPhase, LinkView, Post, Reply, Setup, Side,
    Snapshot,
};
use rmb_region::Region;
use smc_num::{NoMemory, size_of_code};
use std::alloc::Global;
use std::marker::Model;

// No link: the name that nothing has.
const NO_LINK: LinkId = LinkId {
    group: 0,
    slot: 0,
    incarnation: 0,
};

/// One peer over its parts.
#[derive(Drop)]
pub struct SideCore {
    desk: Desk,
    // The handshakes by socket; none where the socket has no end here.
    hands: Vec<Option<Handshake>>,
    connections: Connections,
    // The buffers by RMB, from 1 on.
    regions: Vec<Region>,
}

impl Model for SideCore {
    ghost use Rattle.std.specs.Prelude.{map};
    ghost use Rattle.conn_end.specs.Kept.{Kept};
    ghost use Rattle.side_core.specs.Manager.{Manager, hand_of};
    ghost use Rattle.side_core.specs.Fit.{IsManager};

    ghost Value = { Manager Kept };

    ghost view = { λ c. record { desk = c.desk; hands = map hand_of c.hands.items; records = c.connections; regions = c.regions.items } };

    ghost invariant = { λ c. IsManager (record { desk = c.desk; hands = map hand_of c.hands.items; records = c.connections; regions = c.regions.items }) };
}

impl SideCore {
    /// A side with no group, whose sockets have no end. It takes all its memory here.
    pub fn new(alloc: Global, side: Side, setup: &Setup) -> Result<SideCore, NoMemory>
        requires { IsSet setup.now side }
        ensures kept { IfOk result (λ core. core ≡ new_manager side setup.now) }
        ensures stands { IfOk result (λ core. Represents core (new_manager side setup.now)) }
    {
        let desk = Desk::new(alloc, side, setup)?;
        let hands = no_hands(alloc, setup.sockets)?;
        let size = size_of_code(setup.size_code);
        let elements = desk.elements();
        let connections = Connections::new(
            alloc,
            setup.sockets,
            elements as u16,
            size,
            setup.depth,
            setup.number,
        )?;
        let regions = one_region(alloc, elements, size)?;
        Ok(SideCore {
            desk,
            hands,
            connections,
            regions,
        })
    }

    /// The end of a socket begins its handshake: the client posts its Proposal and waits for the answer,
    /// the server waits for a Proposal. A raw socket has no end at the client.
    pub fn open(&mut self, s: u32, raw: bool, posts: &mut ArrayVec<Post, 6>)
        requires socket { s < length self.old.hands }
        requires none { state_at s self.old ≡ NoEnd }
        requires server { self.old.desk.side ≡ A → raw ≡ false }
        requires room { length posts.old.items ≤ 5 }
        ensures side { (m : Manager Half) → Represents self.old m → Represents self.new (opens_at s raw m) }
        ensures posts { posts.new.items ≡ posts.old.items ++ opening_posts s self.old.desk }
    {
        let side = self.desk.side();
        self.hands[s as usize] = Some(Handshake::new(side, raw));
        if side == Side::A {
            posts.push(Post::Clc {
                from: side,
                s,
                link: None,
                message: ClcMessage::Proposal(messages::proposal(self.desk.setup())),
            });
        }
    }

    /// The end of a socket goes on over TCP alone from the start.
    pub fn fall_back(&mut self, s: u32)
        requires socket { s < length self.old.hands }
        requires none { state_at s self.old ≡ NoEnd }
        ensures { (m : Manager Half) → Represents self.old m → Represents self.new (falls_at s m) }
    {
        self.hands[s as usize] = Some(Handshake::fallen());
    }

    /// What the end of a socket waits for, or what has become of it.
    pub fn end_state(&self, s: u32) -> EndState
        ensures { result ≡ seen_state (state_at s self.now) }
    {
        match self.hands.get(s as usize) {
            Some(Some(hand)) => hand.state(),
            _ => EndState::Absent,
        }
    }

    /// The group that stands here, 0 for none.
    pub fn group(&self) -> u32
        ensures { result ≡ self.now.desk.group }
    {
        self.desk.group()
    }

    /// The latest link of a slot here.
    pub fn link(&self, slot: u8) -> Option<LinkId>
        ensures { result ≡ link_at slot self.now.desk.links.known }
    {
        self.desk.link(slot)
    }

    /// The phase of that link here.
    pub fn phase(&self, slot: u8) -> LinkPhase
        requires { slot ≡ 1 }
        ensures { result ≡ phase_at slot self.now.desk.links.known }
    {
        self.desk.phase(slot)
    }

    /// A link was made by the client: it is pending here.
    pub fn link_made(&mut self, link: LinkId)
        requires { CanMake link self.old.desk }
        ensures { (m : Manager Half) → Represents self.old m → Represents self.new (with_desk (makes_link link) m) }
    {
        self.desk.make_link(link);
    }

    /// The end of a socket takes a CLC message that is about a link. The first rule of the handshake that
    /// holds decides; a message that is held is to come again.
    pub fn take_clc(
        &mut self,
        s: u32,
        message: &ClcMessage,
        link: Option<LinkId>,
        paths: &[bool],
        posts: &mut ArrayVec<Post, 6>,
    ) -> Reply
        requires may { MayTake s message.now (unwrap_or link no_link) paths.now self.old }
        requires sound { IsSoundAt self.old.records.terms.size (conn_at s self.old.records) }
        requires room { length posts.old.items ≤ 2 }
        ensures told { result ≡ taking_told s message.now paths.now self.old }
        ensures asks { verdict_at s message.now paths.now self.old ≡ AskKey → ⊥ }
        ensures side { (m : Manager Half) → Represents self.old m → Represents self.new (takes_message s message.now (unwrap_or link no_link) paths.now m) }
        ensures posts { (m : Manager Half) → Represents self.old m → posts.new.items ≡ posts.old.items ++ taking_posts s message.now (unwrap_or link no_link) paths.now m }
    {
        let link = link.unwrap_or(NO_LINK);
        let lacks = self.desk.lacks(paths);
        let step = judge(&mut self.hands, s, message, &lacks);
        carry_out(
            &mut self.desk,
            &mut self.connections,
            s,
            step,
            message,
            link,
            paths,
            posts,
        );
        told(step, message)
    }

    /// Whether the end of a socket would hold a message back.
    pub fn would_hold(&self, s: u32, message: &ClcMessage, paths: &[bool]) -> bool
        requires may { s < length self.now.hands }
        requires waits { expects (state_at s self.now) ≡ true }
        requires paths { length paths.now ≡ 1 }
        ensures { result ≡ is_wait (verdict_at s message.now paths.now self.now) }
    {
        match self.hands.get(s as usize) {
            Some(Some(hand)) => waits(hand.would_step(message, &self.desk.lacks(paths))),
            _ => false,
        }
    }

    /// A remote write of the peer lands: its bytes stand at its address in the buffer of the RMB to which
    /// its key is bound on the link.
    pub fn land_write(&mut self, link: LinkId, key: u32, address: u64, front: &[u8], back: &[u8])
        requires { MayWrite link key address (length front.now + length back.now) self.old }
        ensures { (m : Manager Half) (rmb : ℕ) → Represents self.old m → rmb_bound key link m.desk.keys ≡ Some rmb
            → Represents self.new (bytes_land rmb address (front.now ++ back.now) m) }
    {
        if let Some(rmb) = self.desk.rmb_of(key, link) {
            land_in(&mut self.regions, rmb, address, front, back);
        }
    }

    /// A CDC message of the peer lands, which spells the snapshot beside it. The end that its token names
    /// takes it, and posts what becomes due; where the token names none it is dropped, and told.
    pub fn land_cdc(
        &mut self,
        _link: LinkId,
        message: &CdcMessage,
        plain: &Snapshot,
        posts: &mut ArrayVec<Post, 6>,
    ) -> Option<u32>
        requires may { MayLandIn message.now plain.now self.old }
        requires room { length posts.old.items ≤ 3 }
        ensures told { result ≡ dropped message.now.token self.old }
        ensures none { holder message.now.token self.old.records ≡ None → (self.new ≡ self.old) × (posts.new.items ≡ posts.old.items) }
        ensures side { (m : Manager Half) (s : ℕ) (sent : Sent) → Represents self.old m → LandsIn s message.now plain.now sent self.old m
            → Represents self.new (acts_at s (takes (Some sent)) m) }
        ensures posts { (m : Manager Half) (s : ℕ) (sent : Sent) → Represents self.old m → LandsIn s message.now plain.now sent self.old m
            → posts.new.items ≡ posts.old.items ++ due_at s (takes (Some sent)) m }
    {
        let Some(s) = self.connections.holder(message.token) else {
            return Some(message.token);
        };
        let way = self.way(s);
        let change = Change::Land(message, plain);
        self.connections.change(s, change, way, posts);
        None
    }

    /// A CDC message of this side, which spells the snapshot beside it, completes at its end; what becomes
    /// due is posted.
    pub fn complete(
        &mut self,
        _link: LinkId,
        message: &CdcMessage,
        plain: &Snapshot,
        posts: &mut ArrayVec<Post, 6>,
    )
        requires may { MayCompleteIn message.now plain.now self.old }
        requires room { length posts.old.items ≤ 3 }
        ensures none { aimer message.now.token self.old.records ≡ None → (self.new ≡ self.old) × (posts.new.items ≡ posts.old.items) }
        ensures side { (m : Manager Half) (s : ℕ) (sent : Sent) → Represents self.old m → CompletesIn s message.now plain.now sent self.old m
            → Represents self.new (acts_at s (completes (Some sent)) m) }
        ensures posts { (m : Manager Half) (s : ℕ) (sent : Sent) → Represents self.old m → CompletesIn s message.now plain.now sent self.old m
            → posts.new.items ≡ posts.old.items ++ due_at s (completes (Some sent)) m }
    {
        let Some(s) = self.connections.aimer(message.token) else {
            return;
        };
        let way = self.way(s);
        let change = Change::Complete(message, plain);
        self.connections.change(s, change, way, posts);
    }

    /// How the end of a socket may post now.
    fn way(&self, s: u32) -> Way
        ensures { IfSome (route_at s self.now.records) (λ r. result ≡ way_of self.now.desk r) }
    {
        match self.connections.route(s) {
            Some(route) => way(&self.desk, &route),
            None => Way {
                side: self.desk.side(),
                live: false,
                key: 0,
            },
        }
    }

    /// A CONFIRM LINK, or the reply to one, lands on a link of this side.
    pub fn land_llc(
        &mut self,
        link: LinkId,
        message: &LlcMessage,
        view: &LinkView,
        posts: &mut ArrayVec<Post, 6>,
    ) -> FlowStep
        requires may { MayConfirm message.now view.now link self.old }
        requires sound { IsSoundAt self.old.records.terms.size (conn_at self.old.desk.first self.old.records) }
        requires room { length posts.old.items ≤ 2 }
        ensures step { result ≡ flow_step self.old.desk.side self.old.desk.flow message.now view.now link.slot true }
        ensures side { (m : Manager Half) → Represents self.old m → Represents self.new (confirms_link result link m) }
        ensures posts { (m : Manager Half) → Represents self.old m → posts.new.items ≡ posts.old.items ++ confirming_posts result link m }
    {
        let step = self.desk.land(link, message, view);
        confirmed(
            &self.desk,
            &mut self.hands,
            &mut self.connections,
            step,
            link,
            posts,
        );
        step
    }

    /// Takes bytes of the application of an established end, as many as its window has room for.
    pub fn write(&mut self, s: u32, bytes: &[u8], posts: &mut ArrayVec<Post, 6>) -> Reply
        requires up { state_at s self.old ≡ IsUp }
        requires sound { IsSoundAt self.old.records.terms.size (conn_at s self.old.records) }
        requires room { length posts.old.items ≤ 3 }
        ensures told { (m : Manager Half) → Represents self.old m → Plain result ≡ told_at s (Writes bytes.now) [] m }
        ensures side { (m : Manager Half) → Represents self.old m → Represents self.new (acts_at s (call_of (Writes bytes.now) m) m) }
        ensures posts { (m : Manager Half) → Represents self.old m → posts.new.items ≡ posts.old.items ++ due_at s (call_of (Writes bytes.now) m) m }
    {
        let way = self.way(s);
        reply_of(self.connections.change(s, Change::Write(bytes), way, posts))
    }

    /// What a read of `len` bytes would be told now.
    pub fn would_read(&self, s: u32, len: u32) -> EndReply
        requires up { state_at s self.now ≡ IsUp }
        ensures { (m : Manager Half) → Represents self.now m → Answers m.records.terms.size (Reads len) (half_at s m.records) result }
    {
        self.connections.would_read(s, len)
    }

    /// Hands told bytes out to the application of an established end, as many as `out` has places for. With
    /// `Take` they stand at the front of `out`.
    pub fn read(&mut self, s: u32, out: &mut [u8], posts: &mut ArrayVec<Post, 6>) -> EndReply
        requires up { state_at s self.old ≡ IsUp }
        requires sound { IsSoundAt self.old.records.terms.size (conn_at s self.old.records) }
        requires few { length out.old < 2 ^ 32 }
        requires room { length posts.old.items ≤ 3 }
        ensures told { (m : Manager Half) → Represents self.old m → Answers m.records.terms.size (Reads (length out.old)) (half_at s m.records) result }
        ensures out { out.new ≡ handed_out result (route_at s self.old.records) self.old ++ drop (length (handed_out result (route_at s self.old.records) self.old)) out.old }
        ensures side { (m : Manager Half) → Represents self.old m → Represents self.new (acts_at s (call_of (Reads (length out.old)) m) m) }
        ensures posts { (m : Manager Half) → Represents self.old m → posts.new.items ≡ posts.old.items ++ due_at s (call_of (Reads (length out.old)) m) m }
    {
        let way = self.way(s);
        let route = self.connections.route(s);
        let change = Change::Read(out.len() as u32);
        let reply = self.connections.change(s, change, way, posts);
        hand_out(&self.regions, route, reply, out);
        reply
    }

    /// The application of an established end finishes, closes or aborts it (RFC 7609, section 4.8). What is
    /// due then is posted.
    pub fn call(&mut self, s: u32, call: EndCall, posts: &mut ArrayVec<Post, 6>) -> Reply
        requires up { state_at s self.old ≡ IsUp }
        requires sound { IsSoundAt self.old.records.terms.size (conn_at s self.old.records) }
        requires room { length posts.old.items ≤ 3 }
        ensures told { (m : Manager Half) → Represents self.old m → Plain result ≡ told_at s (named call) [] m }
        ensures side { (m : Manager Half) → Represents self.old m → Represents self.new (acts_at s (call_of (named call) m) m) }
        ensures posts { (m : Manager Half) → Represents self.old m → posts.new.items ≡ posts.old.items ++ due_at s (call_of (named call) m) m }
    {
        let way = self.way(s);
        reply_of(self.connections.change(s, Change::End(call), way, posts))
    }

    /// The bytes of a write that an end here posted, in two parts. The token is that of the CDC message
    /// that follows the write.
    pub fn outgoing(&self, token: u32, address: u64, len: u32) -> (&[u8], &[u8])
        requires { MayGoOut token address len self.now }
        ensures { (s : ℕ) (h : Half) (first : ℕ) → aimer token self.now.records ≡ Some s
            → IsGoingAt self.now.records.terms.size (conn_at s self.now.records) address len h first
            → result.0.now ++ result.1.now ≡ front len (drop first h.out) }
    {
        let Some(s) = self.connections.aimer(token) else {
            unreachable!()
        };
        self.connections.outgoing(s, address, len)
    }

    /// The snapshot that the end whose messages carry this token posted last.
    pub fn last(&self, token: u32) -> Snapshot
        requires { IsSome (aimer token self.now.records) }
        ensures { (m : Manager Half) (s : ℕ) → Represents self.now m → aimer token self.now.records ≡ Some s → result ≡ (half_at s m.records).last }
    {
        let Some(s) = self.connections.aimer(token) else {
            unreachable!()
        };
        self.connections.last(s)
    }
}

/// So many sockets, none with an end.
#[tactic(auto, using(crate::proofs::Sockets::no_hands_are))]
fn no_hands(alloc: Global, sockets: u32) -> Result<Vec<Option<Handshake>>, NoMemory>
    ensures { IfOk result (λ hands. map hand_of hands.items ≡ replicate sockets no_hand) }
{
    let Ok(mut hands) = Vec::with_capacity(alloc, sockets as usize) else {
        return Err(NoMemory);
    };
    for _socket in 0..sockets {
        hands.push_reserved(None);
    }
    Ok(hands)
}

/// The buffer of the one RMB.
fn one_region(alloc: Global, elements: u8, size: u32) -> Result<Vec<Region>, NoMemory>
    requires { 1 ≤ size }
    ensures { IfOk result (λ regions. regions.items ≡ fresh 1 elements size ∷ []) }
{
    let region = Region::new(alloc, 1, elements, size)?;
    let Ok(mut regions) = Vec::with_capacity(alloc, 1) else {
        return Err(NoMemory);
    };
    regions.push_reserved(region);
    Ok(regions)
}

/// What the handshake of a socket does with a message, by these facts.
fn judge(hands: &mut Vec<Option<Handshake>>, s: u32, message: &ClcMessage, lacks: &Lacks) -> ClcStep
    requires { expects (hand_in s hands.old.items).state ≡ true }
    ensures step { result ≡ verdict (hand_in s hands.old.items).raw (hand_in s hands.old.items).state message.now lacks.now }
    ensures hands { map hand_of hands.new.items ≡ slice_set (map hand_of hands.old.items) s
        (record (hand_in s hands.old.items) { state = after_step result message.now (hand_in s hands.old.items).state }) }
{
    let Some(hand) = &mut hands[s as usize] else {
        unreachable!()
    };
    hand.on(message, lacks)
}

/// Whether a step is to wait.
fn waits(step: ClcStep) -> bool
    ensures { result ≡ is_wait step }
{
    matches!(step, ClcStep::Wait(_))
}

/// Bytes land at an address in the buffer of an RMB.
fn land_in(regions: &mut Vec<Region>, rmb: u8, address: u64, front: &[u8], back: &[u8])
    requires { IsInside address (length front.now + length back.now) (buffer_of rmb regions.old.items) }
    ensures { regions.new.items ≡ slice_set regions.old.items (rmb - 1) (lands_in address (front.now ++ back.now) (buffer_of rmb regions.old.items)) }
{
    let Some(region) = regions.get_mut((rmb as usize).saturating_sub(1)) else {
        return;
    };
    match region.land(address, front, back) {
        Ok(()) => {}
        Err(_) => unreachable!(),
    }
}

/// What a link that is confirmed changes beside the desk: the end of the socket that is in first contact
/// is established. The reply to CONFIRM LINK is posted first.
fn confirmed(
    desk: &Desk,
    hands: &mut Vec<Option<Handshake>>,
    connections: &mut Connections,
    step: FlowStep,
    link: LinkId,
    posts: &mut ArrayVec<Post, 6>,
)
    requires slot { link.slot ≡ 1 }
    requires first { MayRise step desk.now connections.old (hand_in desk.now.first hands.old.items) }
    requires room { length posts.old.items ≤ 2 }
    ensures works { (m : Manager Half) → Works desk.now connections.old m → Works desk.now connections.new (rises_first step m) }
    ensures hands { map hand_of hands.new.items ≡ hands_after step desk.now.first (map hand_of hands.old.items) }
    ensures posts { (m : Manager Half) → Works desk.now connections.old m → posts.new.items ≡ posts.old.items ++ posts_after step link m }
{
    match step {
        FlowStep::Live { reply, first: true } => {
            reply_link(desk, reply, link, posts);
            rise(desk, connections, desk.first(), posts);
            rise_hand(hands, desk.first());
        }
        FlowStep::Live { reply, .. } => reply_link(desk, reply, link, posts),
        _ => {}
    }
}

/// The reply to CONFIRM LINK, where one is due.
fn reply_link(desk: &Desk, reply: bool, link: LinkId, posts: &mut ArrayVec<Post, 6>)
    requires room { length posts.old.items ≤ 5 }
    requires slot { link.slot ≡ 1 }
    ensures posts { posts.new.items ≡ posts.old.items ++ reply_of_desk reply link desk.now }
    ensures few { length posts.new.items ≤ length posts.old.items + 1 }
{
    if reply {
        posts.push(Post::Llc {
            from: desk.side(),
            link,
            message: messages::confirm_link(
                desk.setup(),
                desk.side(),
                true,
                link,
                desk.pair(link.slot),
            ),
        });
    }
}

/// The handshake of a socket ends with its link.
fn rise_hand(hands: &mut Vec<Option<Handshake>>, s: u32)
    requires { (hand_in s hands.old.items).state ≡ WaitsLink }
    ensures { map hand_of hands.new.items ≡ slice_set (map hand_of hands.old.items) s (record (hand_in s hands.old.items) { state = IsUp }) }
{
    let Some(hand) = &mut hands[s as usize] else {
        unreachable!()
    };
    hand.rise();
}

/// Fills the front of `out` with the bytes that an answer to a read hands out.
fn hand_out(regions: &[Region], route: Option<Route>, reply: EndReply, out: &mut [u8])
    requires { MayHand reply route regions.now (length out.old) }
    ensures { out.new ≡ handed_from reply route regions.now ++ drop (length (handed_from reply route regions.now)) out.old }
{
    if let (EndReply::Take { from, len }, Some(route)) = (reply, route) {
        let region = &regions[route.element.rmb as usize - 1];
        region.copy_out(route.element.index, from, &mut out[..len as usize]);
    }
}

/// The reply to a call that hands out no bytes.
fn reply_of(reply: EndReply) -> Reply
    ensures { (rd : ℕ) (told : Says) → told_of reply rd [] ≡ Plain told → result ≡ told }
{
    match reply {
        EndReply::Wrote(count) => Reply::Wrote(count),
        EndReply::Full => Reply::Full,
        EndReply::Take { .. } => Reply::Idle,
        EndReply::Empty => Reply::Empty,
        EndReply::End => Reply::End,
        EndReply::Ended => Reply::Ended,
        EndReply::Done => Reply::Done,
        EndReply::Reset(cause) => Reply::Reset(cause),
    }
}

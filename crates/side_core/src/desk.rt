//! What a side keeps beside its connections: its group, its links and flows, its keys and those of its
//! peer, and its elements (RFC 7609, sections 2, 3.3, 3.5 and 4.4).
ghost use Rattle.std.specs.Prelude.{[], ◌≡◌, ◌*◌, ◌<◌, ◌≤◌, ◌+◌, ◌-◌, ◌^◌, ◌==◌, All, false, true, length, map, filter, slice_index_or, unwrap_or, IfOk, IsSome, Some};
ghost use Rattle.smc_num.specs.Names.{has_link, has, at_side, other as other_side};
ghost use Rattle.std.specs.List.{position};
ghost use Rattle.smc_num.specs.declared.LinkPhase.TheVariants.{Pending};
ghost use Rattle.pipe_model.specs.Flows.{FirstContact, flow_step};
ghost use Rattle.smc_num.specs.Keys.{rmb_bound, key_base as base_of};
ghost use Rattle.smc_num.specs.Links.{is_standing, phase_at, live_links, link_at, link_or_none, lowest_live};
ghost use Rattle.smc_num.specs.Places.{rmb_at};
ghost use Rattle.element_ledger.specs.Lendings.{first_free, IsLent, changes_at, freed, place_of};
ghost use Rattle.pipe_model.specs.Words.{rmbs_of, elements_of, passes};
ghost use Rattle.pipe_model.specs.Messages.{offer};
ghost use Rattle.side_core.specs.Setups.{IsSet};
ghost use Rattle.side_core.specs.Desk.{pair_next, new_offer, new_desk, lacks_of, first_link, made_on, pair_at, own_key, next_place, peer_key, lends_next, takes_back, begins_group, makes_link, learns_offer, next_element, makes_pair, free_place, confirmed_by, IsConfirmLink, IsPendingFor};

use crate::messages;
use arrayvec::ArrayVec;
use element_ledger::{Element, Ledger};
use failover::LinkTable;
use key_book::KeyBook;
use llc_flows::Flows;
use pipe_model::{FlowStep, Lacks, LinkPhase, LinkView, LlcMessage, Offer, Setup};
use rkey_table::KeyTable;
use smc_num::{LinkId, NoMemory, Side};
use std::alloc::Global;
use std::marker::Model;

// RMBs of a side, at most.
const MOST_RMBS: usize = 2;

// Slots for links, at most.
const MOST_SLOTS: usize = 8;

// The bytes between the addresses of two RMBs.
const SPACING: u64 = 0x1_0000_0000;

/// What a side keeps beside its connections.
#[derive(Drop)]
pub struct Desk {
    side: Side,
    setup: Setup,
    // Its group, 0 for none, and how many it has begun.
    group: u32,
    begun: u32,
    links: LinkTable,
    flows: Flows,
    // The number of its queue pair on each slot, and how many it has made.
    pairs: [u32; MOST_SLOTS],
    serial: u32,
    // Its keys, and the RMBs whose keys the peer knows.
    keys: KeyTable,
    confirmed: ArrayVec<u8, MOST_RMBS>,
    book: KeyBook,
    ledger: Ledger,
    // The socket that is in first contact.
    first: u32,
}

impl Model for Desk {
    ghost use Rattle.key_book.specs.Books.{keys_in};
    ghost use Rattle.side_core.specs.Setups.{IsDesk};
    ghost use Rattle.side_core.specs.Desk.{Desk as Kept};

    ghost Value = { Kept };

    ghost view = { λ d. record {
      side = d.side;
      setup = d.setup;
      group = d.group;
      begun = d.begun;
      links = d.links;
      flow = d.flows.flow;
      pairs = d.pairs;
      serial = d.serial;
      keys = d.keys.keys;
      confirmed = d.confirmed.items;
      book = keys_in d.book.known;
      rows = d.ledger.rows;
      first = d.first;
    } };

    ghost invariant = { λ d. IsDesk d.side d.setup d.group d.links d.flows d.keys d.confirmed.items d.book d.ledger };
}

/// How many RMBs a side has.
fn rmbs(setup: &Setup, side: Side) -> u8
    ensures { result ≡ rmbs_of setup.now side }
{
    match side {
        Side::A => setup.rmbs[0],
        Side::B => setup.rmbs[1],
    }
}

/// How many elements each RMB of a side has.
fn elements(setup: &Setup, side: Side) -> u8
    ensures { result ≡ elements_of setup.now side }
{
    match side {
        Side::A => setup.elements[0],
        Side::B => setup.elements[1],
    }
}

/// The number under which no key of a side stands.
fn key_base(side: Side) -> u32
    ensures { result ≡ base_of side }
{
    match side {
        Side::A => 256,
        Side::B => 512,
    }
}

/// The other side.
fn other(side: Side) -> Side
    ensures { result ≡ other_side side }
{
    match side {
        Side::A => Side::B,
        Side::B => Side::A,
    }
}

/// The RMB at an address.
pub(crate) fn rmb_at(address: u64) -> u8
    requires { rmb_at address < 256 }
    ensures { result ≡ rmb_at address }
{
    (address / SPACING) as u8
}

impl Desk {
    /// A side that nothing concerned.
    pub fn new(alloc: Global, side: Side, setup: &Setup) -> Result<Desk, NoMemory>
        requires { IsSet setup.now side }
        ensures { IfOk result (λ desk. desk ≡ new_desk side setup.now) }
    {
        let keys = KeyTable::new(alloc, key_base(side), 1)?;
        let book = KeyBook::new(alloc, rmbs(setup, other(side)), setup.links)?;
        let ledger = Ledger::new(alloc, rmbs(setup, side), elements(setup, side))?;
        Ok(Desk {
            side,
            setup: *setup,
            group: 0,
            begun: 0,
            links: LinkTable::new(setup.links),
            flows: Flows::new(side),
            pairs: [0; MOST_SLOTS],
            serial: 0,
            keys,
            confirmed: ArrayVec::new(),
            book,
            ledger,
            first: 0,
        })
    }

    /// Which side it is.
    pub fn side(&self) -> Side
        ensures { result ≡ self.now.side }
    {
        self.side
    }

    /// What was set.
    pub fn setup(&self) -> &Setup
        ensures { result.now ≡ self.now.setup }
    {
        &self.setup
    }

    /// How many elements its RMB has.
    pub fn elements(&self) -> u8
        ensures { result ≡ elements_of self.now.setup self.now.side }
    {
        elements(&self.setup, self.side)
    }

    /// Its group, 0 for none.
    pub fn group(&self) -> u32
        ensures { result ≡ self.now.group }
    {
        self.group
    }

    /// The socket that is, or was last, in first contact.
    pub fn first(&self) -> u32
        ensures { result ≡ self.now.first }
    {
        self.first
    }

    /// The latest link of a slot.
    pub fn link(&self, slot: u8) -> Option<LinkId>
        ensures { result ≡ link_at slot self.now.links.known }
    {
        self.links.link(slot)
    }

    /// The phase of that link.
    pub fn phase(&self, slot: u8) -> LinkPhase
        requires { slot ≡ 1 }
        ensures { result ≡ phase_at slot self.now.links.known }
    {
        match self.links.phases() {
            [phase, ..] => *phase,
            [] => LinkPhase::Unused,
        }
    }

    /// Whether a link is live at this side.
    pub fn is_live(&self, link: LinkId) -> bool
        ensures { result ≡ has_link link (live_links self.now.links.known) }
    {
        self.links.is_live(link)
    }

    /// The facts by which a CLC message is judged, where these paths are up.
    pub fn lacks(&self, paths: &[bool]) -> Lacks
        requires { length paths.now ≤ 8 }
        ensures { result ≡ lacks_of paths.now self.now }
    {
        Lacks {
            subnet: subnet(&self.setup, self.side),
            free: self.ledger.free(),
            elements: all_elements(&self.setup, self.side),
            rmb_ready: self.rmb_ready(),
            group: self.group,
            first_contact: self.flows.first_contact(),
            slots_up: up_count(paths),
            links: self.setup.links,
            key_flow: self.flows.key_phase(),
            adding: self.flows.adding(),
        }
    }

    /// Whether the peer knows the keys of the RMB with the lowest free element.
    fn rmb_ready(&self) -> bool
        ensures { result ≡ passes (λ p. has p.rmb self.now.confirmed) (free_place self.now) }
    {
        match self.ledger.next_free() {
            Some((rmb, _)) => self.confirmed.as_slice().contains(&rmb),
            None => false,
        }
    }

    /// The link that the server names in first contact.
    pub fn first_link(&self, paths: &[bool]) -> LinkId
        requires slots { length paths.now ≡ 1 }
        requires groups { self.now.begun < 2 ^ 31 }
        requires made { made_on 1 self.now < 2 ^ 31 }
        ensures { result ≡ first_link paths.now self.now }
    {
        let slot = first_up(paths);
        LinkId {
            group: self.begun + 1,
            slot,
            incarnation: self.links.made(slot) + 1,
        }
    }

    /// The lowest live link.
    pub fn lowest_link(&self) -> Option<LinkId>
        ensures { result ≡ link_at (lowest_live self.now.links.known) self.now.links.known }
    {
        let slot = self.links.lowest();
        self.links.link(slot)
    }

    /// The number of its queue pair on a slot.
    pub fn pair(&self, slot: u8) -> u32
        requires { (1 ≤ slot) × (slot ≤ 8) }
        ensures { result ≡ pair_at slot self.now }
    {
        self.pairs[slot as usize - 1]
    }

    /// The place of the lowest free element: an RMB, which is the side's one, and an index.
    #[tactic(auto, using(crate::proofs::Elements::first_in_one))]
    pub fn next_place(&self) -> (u8, u8)
        requires { IsSome (first_free self.now.rows) }
        ensures place { record { rmb = result.0; index = result.1 } ≡ next_place self.now }
        ensures rmb { result.0 ≡ 1 }
    {
        match self.ledger.next_free() {
            Some(place) => place,
            None => unreachable!(),
        }
    }

    /// The key of the side's RMB for its slot.
    fn own_key(&self) -> u32
        requires { (self.now.group == 0) ≡ false }
        ensures { result ≡ own_key 1 1 self.now }
    {
        match self.keys.number(1, 1) {
            Some(key) => key,
            None => unreachable!(),
        }
    }

    /// An offer of the lowest free element under a token, for a link on which it has a queue pair.
    pub fn offer(&self, first: bool, link: LinkId, token: u32) -> Offer
        requires begun { (self.now.group == 0) ≡ false }
        requires slot { link.slot ≡ 1 }
        requires free { IsSome (first_free self.now.rows) }
        ensures { result ≡ offer self.now.setup self.now.side first link (pair_at link.slot self.now) (own_key (next_place self.now).rmb link.slot self.now) (next_place self.now) token }
    {
        let place = self.next_place();
        let key = self.own_key();
        messages::offer(
            &self.setup,
            self.side,
            first,
            link,
            self.pair(link.slot),
            key,
            place,
            token,
        )
    }

    /// The lowest free element is lent to a socket.
    pub fn lend(&mut self, s: u32) -> Element
        requires free { IsSome (first_free self.old.rows) }
        requires epochs { All (λ r. r.epoch < 2 ^ 32 - 1) self.old.rows }
        ensures element { result ≡ next_element self.old }
        ensures desk { self.new ≡ lends_next s self.old }
    {
        match self.ledger.lend(s) {
            Some(element) => element,
            None => unreachable!(),
        }
    }

    /// An element is given back, whose connection has left its handshake.
    pub fn take_back(&mut self, element: Element)
        requires { IsLent element self.old.rows }
        ensures { self.new ≡ takes_back element self.old }
    {
        free(&mut self.ledger, element);
    }

    /// First contact begins on a socket, with an offer of the RMB for a link that is to be made.
    fn begin_group(&mut self, s: u32, link: LinkId, rmb: u8)
        requires rmb { rmb ≡ 1 }
        requires none { self.old.group ≡ 0 }
        requires slot { link.slot ≡ 1 }
        requires named { (link.group == 0) ≡ false }
        requires begun { self.old.begun < 2 ^ 31 }
        requires serial { self.old.serial < 2 ^ 20 }
        ensures desk { self.new ≡ begins_group s link rmb self.old }
        ensures quiet { self.old.links.known ≡ [] }
        ensures pair { pair_at link.slot self.new ≡ pair_next link.slot self.old }
        ensures key { own_key rmb link.slot self.new ≡ own_key rmb link.slot self.old }
    {
        self.make_pair(link.slot);
        self.links.clear();
        self.flows.begin_first();
        match self.keys.register(rmb, link) {
            Ok(_) => {}
            Err(_) => unreachable!(),
        }
        self.confirmed.push(rmb);
        self.group = link.group;
        if self.side == Side::B {
            self.begun += 1;
        }
        self.first = s;
    }

    /// First contact begins on a socket with an offer of the lowest free element under a token, for a link
    /// that is to be made.
    pub fn begin(&mut self, s: u32, link: LinkId, token: u32) -> Offer
        requires none { self.old.group ≡ 0 }
        requires slot { link.slot ≡ 1 }
        requires named { (link.group == 0) ≡ false }
        requires begun { self.old.begun < 2 ^ 31 }
        requires serial { self.old.serial < 2 ^ 20 }
        requires free { IsSome (first_free self.old.rows) }
        ensures offer { result ≡ new_offer true link token self.old }
        ensures desk { self.new ≡ begins_group s link (next_place self.old).rmb self.old }
        ensures quiet { self.old.links.known ≡ [] }
    {
        let (rmb, _) = self.next_place();
        self.begin_group(s, link, rmb);
        self.offer(true, link, token)
    }

    /// A queue pair is made on a slot.
    fn make_pair(&mut self, slot: u8)
        requires slot { (1 ≤ slot) × (slot ≤ 8) }
        requires serial { self.old.serial < 2 ^ 20 }
        ensures { self.new ≡ makes_pair slot self.old }
    {
        self.serial += 1;
        self.pairs[slot as usize - 1] = 16 * self.serial + slot as u32;
    }

    /// A link is made, and pending.
    pub fn make_link(&mut self, link: LinkId)
        requires slot { link.slot ≡ 1 }
        requires begun { (self.old.group == 0) ≡ false }
        requires none { is_standing (phase_at link.slot self.old.links.known) ≡ false }
        requires next { link.incarnation ≡ made_on link.slot self.old + 1 }
        ensures { self.new ≡ makes_link link self.old }
    {
        self.links.make(link);
    }

    /// The key of the peer's offer is learnt, for a link.
    pub fn learn(&mut self, link: LinkId, offer: &Offer)
        requires slot { link.slot ≡ 1 }
        requires rmb { rmb_at offer.now.address ≡ 1 }
        ensures { self.new ≡ learns_offer link offer.now self.old }
    {
        self.book
            .learn(rmb_at(offer.address), link, offer.key, offer.address);
    }

    /// The key of the peer's RMB at an address, for a link.
    pub fn peer_key(&self, address: u64, link: LinkId) -> u32
        requires { rmb_at address < 256 }
        ensures { result ≡ peer_key address link self.now }
    {
        match self.book.key_for(rmb_at(address), link) {
            Some((key, _)) => key,
            None => 0,
        }
    }

    /// The RMB to which a key is bound on a link.
    pub fn rmb_of(&self, key: u32, link: LinkId) -> Option<u8>
        ensures { result ≡ rmb_bound key link self.now.keys }
    {
        self.keys.lookup(key, link)
    }

    /// A CONFIRM LINK, or the reply to one, lands on a link of this side.
    pub fn land(&mut self, link: LinkId, message: &LlcMessage, view: &LinkView) -> FlowStep
        requires slot { link.slot ≡ 1 }
        requires kind { IsConfirmLink message.now }
        requires begun { (self.old.group == 0) ≡ false }
        requires pending { IsPendingFor (flow_step self.old.side self.old.flow message.now view.now link.slot true) link.slot self.old.links.known }
        ensures step { result ≡ flow_step self.old.side self.old.flow message.now view.now link.slot true }
        ensures desk { self.new ≡ confirmed_by result link.slot self.old }
    {
        let carrier = self.links.lowest();
        let step = self.flows.on(message, view, link.slot, true, carrier);
        if let FlowStep::Live { .. } = step {
            self.links.confirm(link.slot);
        }
        step
    }
}

/// Both ends of a lending have gone, and its element is free.
#[tactic(auto, using(element_ledger::proofs::Once::gone_is_freed))]
fn free(ledger: &mut Ledger, element: Element)
    requires { IsLent element ledger.old.rows }
    ensures { ledger.new ≡ record ledger.old { rows = map (changes_at (place_of element) freed) ledger.old.rows } }
{
    ledger.own_gone(element);
    ledger.peer_gone(element);
    match ledger.give_back(element) {
        Ok(()) => {}
        Err(_) => unreachable!(),
    }
}

/// The subnet of a side.
fn subnet(setup: &Setup, side: Side) -> (u32, u8)
    ensures { result ≡ at_side side (slice_index_or setup.now.subnet 0 (0, 0)) (slice_index_or setup.now.subnet 1 (0, 0)) }
{
    match side {
        Side::A => setup.subnet[0],
        Side::B => setup.subnet[1],
    }
}

/// All elements of a side.
fn all_elements(setup: &Setup, side: Side) -> u16
    ensures { result ≡ rmbs_of setup.now side * elements_of setup.now side }
{
    rmbs(setup, side) as u16 * elements(setup, side) as u16
}

/// How many paths are up.
fn up_count(paths: &[bool]) -> u8
    requires { length paths.now ≤ 8 }
    ensures { result ≡ length (filter (λ up. up) paths.now) }
{
    paths.iter().filter(|up| **up).count() as u8
}

/// The place of the lowest path that is up.
fn up_at(paths: &[bool]) -> Option<usize>
    ensures { result ≡ position (λ up. up) paths.now }
{
    paths.iter().position(|up| *up)
}

/// The lowest slot with its path up, or the first one.
fn first_up(paths: &[bool]) -> u8
    requires { length paths.now ≡ 1 }
    ensures slot { result ≡ unwrap_or (position (λ up. up) paths.now) 0 + 1 }
    ensures range { result ≡ 1 }
{
    match up_at(paths) {
        Some(at) => at as u8 + 1,
        None => 1,
    }
}

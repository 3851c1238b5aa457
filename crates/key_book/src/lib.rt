//! What a side has learnt of its peer's keys.
//!
//! The peer tells for each of its RMBs, on each link, the key and the address by which it may be
//! written (RFC 7609, section 2.1). The book is a finite map from RMB and link to these. What is
//! learnt for a new link of a slot takes the place of what was known for the earlier one, so that
//! the room taken by `new` is always enough.
#![tactic(auto)]

ghost use Rattle.std.specs.Prelude.{◌≡◌, [], option_map, IfOk};
ghost use Rattle.smc_num.specs.Keys.{bound, binds, rmb_bound, without_named, without_rmb, IsInRange};
ghost use Rattle.key_book.specs.Books.{keys_in, learns, forgets, forgets_named, known_for, IsBook};

mod learnt;

use crate::learnt::{Entry, known_for, remove_named, remove_rmb, replace, rmb_of};
use smc_num::{LinkId, NoMemory};
use std::alloc::Global;
use std::marker::Model;

/// The keys of the peer's RMBs on the links.
#[derive(Debug, Drop)]
pub struct KeyBook {
    rmbs: u8,
    links: u8,
    known: Vec<Entry>,
}

impl Model for KeyBook {
    ghost use Rattle.std.specs.Prelude.{◌≤◌, ◌*◌, vec_capacity};
    ghost use Rattle.key_book.specs.Books.{Book, IsBook};

    ghost Value = { Book };

    ghost view = { λ b. record { rmbs = b.rmbs; links = b.links; known = b.known.items } };

    ghost invariant = { λ b. IsBook (record { rmbs = b.rmbs; links = b.links; known = b.known.items })
        × (b.rmbs * b.links ≤ vec_capacity b.known) };
}

impl KeyBook {
    /// A book that knows nothing yet, with room for every RMB on every slot.
    pub fn new(alloc: Global, rmbs: u8, links: u8) -> Result<KeyBook, NoMemory>
        ensures { IfOk result (λ book. book ≡ record { rmbs = rmbs; links = links; known = [] }) }
    {
        let Ok(known) = Vec::with_capacity(alloc, rmbs as usize * links as usize) else {
            return Err(NoMemory);
        };
        Ok(KeyBook { rmbs, links, known })
    }

    /// Learns the key and the address of an RMB for a link. What was known of the RMB for the same
    /// slot goes.
    pub fn learn(&mut self, rmb: u8, link: LinkId, key: u32, address: u64)
        requires { IsInRange self.old.rmbs self.old.links rmb link.slot }
        ensures known { self.new ≡ record self.old { known = learns (record { key = record { key = key; rmb = rmb; link = link }; address = address }) self.old.known } }
        ensures keys { keys_in self.new.known ≡ binds (record { key = key; rmb = rmb; link = link }) (keys_in self.old.known) }
    {
        let new = Entry {
            key,
            rmb,
            link,
            address,
        };
        replace(&mut self.known, new);
    }

    /// Forgets an RMB on all links.
    pub fn forget(&mut self, rmb: u8)
        ensures known { self.new ≡ record self.old { known = forgets rmb self.old.known } }
        ensures keys { keys_in self.new.known ≡ without_rmb rmb (keys_in self.old.known) }
    {
        remove_rmb(&mut self.known, rmb);
    }

    /// Forgets each RMB that has this key on this link, on all links.
    pub fn forget_key(&mut self, key: u32, link: LinkId)
        ensures known { self.new ≡ record self.old { known = forgets_named key link self.old.known } }
        ensures keys { keys_in self.new.known ≡ without_named key link (keys_in self.old.known) }
    {
        remove_named(&mut self.known, key, link);
    }

    /// The key of an RMB on a link, and the address at which the RMB begins there.
    pub fn key_for(&self, rmb: u8, link: LinkId) -> Option<(u32, u64)>
        ensures known { result ≡ option_map (λ l. (l.key.key, l.address)) (known_for rmb link self.now.known) }
        ensures key { option_map (λ r. r.0) result ≡ bound rmb link (keys_in self.now.known) }
        ensures kept { IsBook self.now }
    {
        known_for(&self.known, rmb, link)
    }

    /// The RMB that has this key on this link.
    pub fn rmb_of(&self, key: u32, link: LinkId) -> Option<u8>
        ensures { result ≡ rmb_bound key link (keys_in self.now.known) }
    {
        rmb_of(&self.known, key, link)
    }

    /// Forgets everything.
    pub fn clear(&mut self)
        ensures { self.new ≡ record self.old { known = [] } }
    {
        self.known.clear();
    }
}

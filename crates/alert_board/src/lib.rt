//! A board of alerts: one pen publishes flags at places, and looks find them by loads alone.
//!
//! At each place the publications are numbered from 1 on, and done, closed and reset are never taken back.
//! A look's poll takes no lock and never waits. It makes one load and answers what that load found, which is no older than what the look has seen at that place.
//! That news arrives is not promised.
#![tactic(auto)]

ghost use Rattle.std.specs.Prelude.{◌≡◌, ◌≢◌, ◌<◌, ◌≤◌, ◌+◌, ◌-◌, ◌^◌, ◌++◌, ◌∷◌, ℕ, [], true, false, List, length, replicate, slice_index, IfOk};
ghost use Rattle.alert_board.specs.declared.flags.Alert.{Alert};
ghost use Rattle.alert_board.specs.declared.flags.News.{News};
ghost use Rattle.alert_board.specs.Alerts.{IsOf, Keeps, Later, Rises, last_of, later_of, log_at, news_at, no_alert, no_news};
ghost use Rattle.alert_board.specs.Known.{fresh, joined_look, polled, published};

mod flags;
mod rule;
mod steps;
mod word;

pub use crate::flags::{Alert, News};
use crate::rule::{Alerts, View};
use atomic_table::{Seat, Table};
use std::alloc::{AllocError, Global};
use std::marker::{Brand, Model};

/// Memory ran out.
#[derive(Clone, Copy, Debug, PartialEq, Eq)]
pub struct NoMemory;

impl From<AllocError> for NoMemory {
    fn from(_: AllocError) -> NoMemory {
        NoMemory
    }
}

/// A word for each place, which the pen writes and the looks load. Contracts see which board it is, and the number of its places as `words`.
#[derive(Drop)]
pub struct Board {
    table: Table<(), View, usize, Alerts, Global>,
}

impl Model for Board {
    ghost use Rattle.std.specs.Prelude.{◌<◌};
    ghost use Rattle.alert_board.specs.Known.{BoardId};

    ghost Value = { BoardId };

    ghost view = { λ b. b.table.shared.table_id };

    ghost invariant = { λ b. 0 < b.table.shared.table_id.words };
}

/// The only one that publishes on its board. Contracts see the publications of each place.
#[derive(Drop)]
pub struct Pen {
    seat: Seat<(), View>,
    numbers: Vec<u32>,
}

impl Model for Pen {
    ghost use Rattle.std.specs.Prelude.{◌≡◌, [], true, length, map};
    ghost use Rattle.alert_board.specs.Known.{Told};

    ghost Value = { Told };

    ghost view = { λ p. record { board = p.seat.table_id; logs = p.seat.me.0.logs } };

    ghost invariant = { λ p. (p.seat.me.1 ≡ []) × (p.seat.me.0.pen ≡ true) × (p.numbers.items ≡ map length p.seat.me.0.logs) × (length p.seat.me.0.logs ≡ p.seat.table_id.words) };
}

/// A reader of its board. Contracts see what it has seen at each place, and how often it has loaded the place's word.
#[derive(Drop)]
pub struct Look {
    seat: Seat<(), View>,
}

impl Model for Look {
    ghost use Rattle.std.specs.Prelude.{◌≡◌, [], false, length};
    ghost use Rattle.alert_board.specs.Known.{Looked};

    ghost Value = { Looked };

    ghost view = { λ l. record { board = l.seat.table_id; seen = l.seat.me.0.seen; loads = l.seat.me.0.loads } };

    ghost invariant = { λ l. (l.seat.me.1 ≡ []) × (l.seat.me.0.pen ≡ false) × (length l.seat.me.0.seen ≡ l.seat.table_id.words) × (length l.seat.me.0.loads ≡ l.seat.table_id.words) };
}

impl Board {
    /// A board with so many places, its pen, and a look. Nothing is published, and nothing loaded.
    pub fn new(alloc: Global, places: u32) -> Result<(Board, Pen, Look), NoMemory>
        requires { 1 ≤ places }
        ensures board { IfOk result (λ r. (r.0.words ≡ places) × (r.1.board ≡ r.0) × (r.2.board ≡ r.0)) }
        ensures whole { IfOk result (λ r. (r.1.logs ≡ replicate places []) × (r.2 ≡ fresh r.1)) }
        ensures empty { IfOk result (λ r. (p : ℕ) → (log_at r.1.logs p ≡ []) × (news_at r.2.seen p ≡ no_news) × (slice_index r.2.loads p ≡ 0)) }
    {
        let places = places as usize;
        let words = vec![in alloc; 0u64; places]?;
        let numbers = vec![in alloc; 0u32; places]?;
        let (table, seat) = Table::of_words(alloc, words.as_slice(), &places)?;
        let board = Board { table };
        let mut pen = Pen { seat, numbers };
        let look = pen.look(&board);
        Ok((board, pen, look))
    }
}

impl Pen {
    /// Publishes flags at a place, under the place's next number. A place takes up to 2^32 - 1 publications, and done, closed and reset stay once they are set.
    pub fn publish(&mut self, board: &Board, place: u32, flags: Alert)
        requires board { self.old.board ≡ board.now }
        requires place { place < board.now.words }
        requires room { length (log_at self.old.logs place) < 2 ^ 32 - 1 }
        requires kept { Keeps (last_of (log_at self.old.logs place)).flags flags }
        ensures whole { self.new ≡ published self.old place flags }
        ensures here { log_at self.new.logs place ≡ log_at self.old.logs place ++ flags ∷ [] }
        ensures last { last_of (log_at self.new.logs place) ≡ record { number = length (log_at self.old.logs place) + 1; flags = flags } }
        ensures others { (p : ℕ) → p ≢ place → log_at self.new.logs p ≡ log_at self.old.logs p }
        ensures rises { (p : ℕ) → Rises (log_at self.new.logs p) }
    {
        let number = self.numbers[place as usize] + 1;
        steps::publish::<Brand>(
            &board.table.shared,
            &mut self.seat,
            place as usize,
            number,
            flags,
        );
        self.numbers[place as usize] = number;
    }

    /// A look that has seen the last publication of each place.
    pub fn look(&mut self, board: &Board) -> Look
        requires { self.old.board ≡ board.now }
        ensures same { self.new ≡ self.old }
        ensures whole { result ≡ fresh self.old }
        ensures last { (p : ℕ) → news_at result.seen p ≡ last_of (log_at self.old.logs p) }
        ensures unloaded { (p : ℕ) → slice_index result.loads p ≡ 0 }
    {
        Look {
            seat: steps::look(&board.table.shared, &mut self.seat),
        }
    }

    /// Takes a look back: what it has seen at each place is one of the pen's publications there, or number 0 and no flag.
    pub fn meet(&mut self, board: &Board, look: Look)
        requires pen { self.old.board ≡ board.now }
        requires look { look.board ≡ board.now }
        ensures same { self.new ≡ self.old }
        ensures of { (p : ℕ) → IsOf (log_at self.old.logs p) (news_at look.seen p) }
        ensures later { (p : ℕ) → Later (news_at look.seen p) (last_of (log_at self.old.logs p)) }
    {
        let Look { seat } = look;
        steps::meet(&board.table.shared, &mut self.seat, seat);
    }
}

impl Look {
    /// What one load of a place's word finds: the place's last publication at that moment, or number 0 and no flag before the first.
    /// It is no older than what the look has seen there. The call takes no lock and never waits.
    pub fn poll(&mut self, board: &Board, place: u32) -> News
        requires board { self.old.board ≡ board.now }
        requires place { place < board.now.words }
        ensures whole { self.new ≡ polled self.old place result }
        ensures seen { news_at self.new.seen place ≡ result }
        ensures loaded { slice_index self.new.loads place ≡ slice_index self.old.loads place + 1 }
        ensures others { (p : ℕ) → p ≢ place → (news_at self.new.seen p ≡ news_at self.old.seen p) × (slice_index self.new.loads p ≡ slice_index self.old.loads p) }
        ensures later { Later (news_at self.old.seen place) result }
        ensures none { result.number ≡ 0 → result.flags ≡ no_alert }
    {
        steps::poll(&board.table.shared, &mut self.seat, place as usize)
    }

    /// Another look, which has seen and loaded the same.
    pub fn split(&mut self, board: &Board) -> Look
        requires { self.old.board ≡ board.now }
        ensures same { self.new ≡ self.old }
        ensures copy { result ≡ self.old }
    {
        Look {
            seat: steps::split(&board.table.shared, &mut self.seat),
        }
    }

    /// Takes in what another look has seen: the later of the two at each place. The loads stay this look's own.
    pub fn join(&mut self, board: &Board, other: Look)
        requires this { self.old.board ≡ board.now }
        requires other { other.board ≡ board.now }
        ensures whole { self.new ≡ joined_look self.old other }
        ensures seen { (p : ℕ) → news_at self.new.seen p ≡ later_of (news_at self.old.seen p) (news_at other.seen p) }
        ensures later { (p : ℕ) → Later (news_at self.old.seen p) (news_at self.new.seen p) × Later (news_at other.seen p) (news_at self.new.seen p) }
    {
        let Look { seat } = other;
        steps::join(&board.table.shared, &mut self.seat, seat);
    }
}

/// Two laws of what looks answer.
/// No older than what was no older: so all of a look's answers at a place stand in one order.
/// A look that has seen the last publication of a place answers just that until it is met, where nothing is published there meanwhile.
pub fn order_of_answers()
    ensures chains { (first second third : News) → Later first second → Later second third → Later first third }
    ensures last { (log : List Alert) (answer seen : News) → Later (last_of log) answer → Later answer seen → IsOf log seen → answer ≡ last_of log }
{}

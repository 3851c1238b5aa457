// The steps on the table, each by the seat of a pen or of a look.
ghost use Rattle.std.specs.Prelude.{◌≡◌, ◌<◌, ◌≤◌, ◌+◌, ◌^◌, ◌++◌, ◌∷◌, ℕ, [], true, false, length, slice_index, slice_set};
ghost use Rattle.alert_board.specs.Alerts.{FitsAll, Keeps, Later, Rises, last_of, log_at, news_at, no_alert};
ghost use Rattle.alert_board.specs.Rule.{fresh_look, joined, met, same_look};

use crate::flags::{Alert, News};
use crate::rule::{
    Alerts, Compares, Copies, Fresh, Joins, Meets, Orders, Polls, Publishes, Says, View,
};
use crate::word::{pack, unpack};
use atomic_table::{Seat, Shared};

pub(crate) fn publish<J: Says>(
    table: &Shared<(), View, usize, Alerts>,
    seat: &mut Seat<(), View>,
    place: usize,
    number: u32,
    flags: Alert,
)
    requires table { (seat.old.table_id ≡ table.now.table_id) × (place < table.now.table_id.words) }
    requires pen { (seat.old.me.0.pen ≡ true) × (length seat.old.me.0.logs ≡ table.now.table_id.words) }
    requires says { (J.flags ≡ flags) × (number < 2 ^ 32) }
    requires number { number ≡ length (log_at seat.old.me.0.logs place) + 1 }
    requires kept { Keeps (last_of (log_at seat.old.me.0.logs place)).flags flags }
    ensures table { (seat.new.table_id ≡ seat.old.table_id) × (seat.new.me.1 ≡ seat.old.me.1) }
    ensures published { seat.new.me.0 ≡ record seat.old.me.0 { logs = slice_set seat.old.me.0.logs place (log_at seat.old.me.0.logs place ++ flags ∷ []) } }
    ensures rises { (p : ℕ) → Rises (log_at seat.new.me.0.logs p) }
{
    table.swap::<Publishes<J>>(seat, place, pack(number, flags));
}

pub(crate) fn poll(
    table: &Shared<(), View, usize, Alerts>,
    seat: &mut Seat<(), View>,
    place: usize,
) -> News
    requires table { (seat.old.table_id ≡ table.now.table_id) × (place < table.now.table_id.words) }
    requires look { seat.old.me.0.pen ≡ false }
    ensures table { (seat.new.table_id ≡ seat.old.table_id) × (seat.new.me.1 ≡ seat.old.me.1) }
    ensures polled { seat.new.me.0 ≡ record seat.old.me.0 { seen = slice_set seat.old.me.0.seen place result; loads = slice_set seat.old.me.0.loads place (slice_index seat.old.me.0.loads place + 1) } }
    ensures later { Later (news_at seat.old.me.0.seen place) result }
    ensures none { result.number ≡ 0 → result.flags ≡ no_alert }
{
    let found = table.load::<Polls>(seat, place);
    unpack(found)
}

pub(crate) fn split(
    table: &Shared<(), View, usize, Alerts>,
    seat: &mut Seat<(), View>,
) -> Seat<(), View>
    requires table { (seat.old.table_id ≡ table.now.table_id) × (0 < table.now.table_id.words) }
    ensures same { (seat.new.table_id ≡ seat.old.table_id) × (seat.new.me ≡ seat.old.me) }
    ensures split { (result.table_id ≡ seat.old.table_id) × (result.me ≡ (same_look seat.old.me.0, [])) }
{
    table.split_seat::<Copies>(seat)
}

pub(crate) fn join(
    table: &Shared<(), View, usize, Alerts>,
    seat: &mut Seat<(), View>,
    other: Seat<(), View>,
)
    requires table { (seat.old.table_id ≡ table.now.table_id) × (other.table_id ≡ table.now.table_id) × (0 < table.now.table_id.words) }
    requires idle { other.me.1 ≡ [] }
    requires places { (length seat.old.me.0.seen ≡ table.now.table_id.words) × (length other.me.0.seen ≡ table.now.table_id.words) }
    ensures table { (seat.new.table_id ≡ seat.old.table_id) × (seat.new.me ≡ (joined seat.old.me.0 other.me.0, seat.old.me.1)) }
    ensures later { (p : ℕ) → Later (news_at seat.old.me.0.seen p) (news_at seat.new.me.0.seen p) × Later (news_at other.me.0.seen p) (news_at seat.new.me.0.seen p) }
{
    table.join_seat::<Joins>(seat, other);
    table.load::<Orders>(seat, 0);
}

pub(crate) fn look(
    table: &Shared<(), View, usize, Alerts>,
    seat: &mut Seat<(), View>,
) -> Seat<(), View>
    requires table { (seat.old.table_id ≡ table.now.table_id) × (0 < table.now.table_id.words) }
    requires pen { seat.old.me.0.pen ≡ true }
    ensures same { (seat.new.table_id ≡ seat.old.table_id) × (seat.new.me ≡ seat.old.me) }
    ensures look { (result.table_id ≡ seat.old.table_id) × (result.me ≡ (fresh_look seat.old.me.0, [])) }
{
    table.split_seat::<Fresh>(seat)
}

pub(crate) fn meet(
    table: &Shared<(), View, usize, Alerts>,
    seat: &mut Seat<(), View>,
    other: Seat<(), View>,
)
    requires table { (seat.old.table_id ≡ table.now.table_id) × (other.table_id ≡ table.now.table_id) × (0 < table.now.table_id.words) }
    requires pen { seat.old.me.0.pen ≡ true }
    requires idle { other.me.1 ≡ [] }
    ensures table { (seat.new.table_id ≡ seat.old.table_id) × (seat.new.me ≡ (met seat.old.me.0 other.me.0, seat.old.me.1)) }
    ensures fits { FitsAll seat.old.me.0.logs other.me.0.seen }
    ensures later { (p : ℕ) → Later (news_at other.me.0.seen p) (last_of (log_at seat.old.me.0.logs p)) }
{
    table.join_seat::<Meets>(seat, other);
    table.load::<Compares>(seat, 0);
}

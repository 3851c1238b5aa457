// The place of a member, and the first that is ready.
ghost use Rattle.std.specs.Prelude.{◌≡◌, ◌<◌, ℕ, IfErr, IfNone, IfOk, IfSome, length};
ghost use Rattle.wait_set.specs.Waiting.{IsRising, place_of};
ghost use Rattle.wait_set.specs.Search.{Asked, IsAt, IsFirst, IsGapFor, NoneReady};

use crate::member::Waiting;
use alert_board::{Board, Look, News};

// Where the member with this place is, or where it would go.
pub(crate) fn position(members: &[Waiting], place: u32) -> Result<usize, usize>
    requires { IsRising members.now }
    ensures there { IfOk result (IsAt members.now place) }
    ensures absent { IfErr result (IsGapFor members.now place) }
{
    members.binary_search_by_key(&place, |w| w.member.place)
}

// The first that is ready by one load of its place, with what was found.
pub(crate) fn first_ready(
    members: &[Waiting],
    look: &mut Look,
    board: &Board,
) -> Option<(usize, News)>
    requires board { look.old.board ≡ board.now }
    requires rising { IsRising members.now }
    requires places { (i : ℕ) → i < length members.now → place_of members.now i < board.now.words }
    ensures found { IfSome result (λ r. IsFirst members.now r.0 r.1 look.old look.new) }
    ensures none { IfNone result (Asked members.now (length members.now) look.old look.new × NoneReady members.now (length members.now) look.new) }
{
    for (at, waiting) in members.iter().enumerate() {
        let news = look.poll(board, waiting.member.place);
        if waiting.is_ready(news) {
            return Some((at, news));
        }
    }
    None
}

// The members of a set.
ghost use Rattle.std.specs.Prelude.{◌≡◌};
ghost use Rattle.wait_set.specs.Ready.{is_ready, wants};

use alert_board::{Alert, News};

/// A place that is waited for.
#[derive(Clone, Copy, Debug, PartialEq, Eq)]
pub struct Member {
    /// A place of the board.
    pub place: u32,
    /// The flags of which one has to be set.
    pub mask: Alert,
    /// It waits for a number above the one at which it was last picked.
    pub edge: bool,
}

/// Why a member isn't added.
#[derive(Clone, Copy, Debug, PartialEq, Eq)]
pub enum SetFault {
    /// The place is in the set.
    Twice { place: u32 },
    /// The set has as many members as it may have.
    Full { members: u32 },
}

// A member, with the number at which it was last picked.
#[derive(Clone, Copy, Debug, PartialEq, Eq)]
pub struct Waiting {
    pub member: Member,
    pub picked: u32,
}

// Whether a flag of the mask is set.
fn wants(mask: Alert, flags: Alert) -> bool
    ensures { result ≡ wants mask flags }
{
    mask.readable && flags.readable
        || mask.done && flags.done
        || mask.closed && flags.closed
        || mask.reset && flags.reset
}

impl Waiting {
    // Whether it is ready by this news.
    pub fn is_ready(&self, news: News) -> bool
        ensures { result ≡ is_ready self.now news }
    {
        wants(self.member.mask, news.flags) && (!self.member.edge || self.picked < news.number)
    }
}

//! The live links of an end's group, lowest slot first.
ghost use Rattle.std.specs.Prelude.{◌≡◌, ◌≤◌, OnOk, length, filter, not};
ghost use Rattle.std.specs.List.{insert};
ghost use Rattle.smc_num.specs.Names.{same_link, has_link};
ghost use Rattle.pipe_model.specs.Ends.{with_link};

use smc_num::LinkId;
use std::alloc::AllocError;

/// Whether two links are the same.
fn same(a: LinkId, b: LinkId) -> bool
    ensures { result ≡ same_link a b }
{
    a == b
}

/// Whether the link is live.
pub(super) fn is_live(link: LinkId, live: &[LinkId]) -> bool
    ensures { result ≡ has_link link live.now }
{
    live.iter().any(|l| same(link, *l))
}

/// The link is not live any more.
pub(super) fn take_out(link: LinkId, live: &mut Vec<LinkId>)
    ensures { live.new.items ≡ filter (λ l. not (same_link link l)) live.old.items }
{
    live.retain(|l| !same(link, *l));
}

/// How many links come before one with a higher slot than this link's.
fn place(link: LinkId, live: &[LinkId]) -> usize
    ensures bound { result ≤ length live.now }
    ensures place { with_link link live.now ≡ insert live.now result link }
{
    match live {
        [first, rest @ ..] if first.slot <= link.slot => 1 + place(link, rest),
        _ => 0,
    }
}

/// The link becomes live.
pub(super) fn put_in(link: LinkId, live: &mut Vec<LinkId>) -> Result<(), AllocError>
    ensures { OnOk result (live.new.items ≡ with_link link live.old.items) }
{
    let at = place(link, live);
    live.insert(at, link)?;
    Ok(())
}

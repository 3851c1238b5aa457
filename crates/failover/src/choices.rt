//! Which link is chosen.
ghost use Rattle.std.specs.Prelude.{◌≡◌, ◌+◌, ◌≤◌, ◌↔◌, ◌<◌, false, ℕ, length, IfSome, IfNone};
ghost use Rattle.smc_num.specs.Links.{is_live};
ghost use Rattle.failover.specs.Choices.{lowest_from, is_live_at, IsBest, IsFewest};

use smc_num::LinkPhase;

/// Whether a link in this phase is live.
pub(crate) fn is_live(phase: LinkPhase) -> bool
    ensures { result ≡ is_live phase }
{
    match phase {
        LinkPhase::Live => true,
        _ => false,
    }
}

/// The lowest slot whose link is live. Slots count from 1.
pub fn lowest_live(phases: &[LinkPhase]) -> Option<u8>
    requires { length phases.now ≤ 255 }
    ensures { result ≡ lowest_from 1 phases.now }
{
    for i in 0..phases.len() {
        if is_live(phases[i]) {
            return Some(i as u8 + 1);
        }
    }
    None
}

/// The better of the best link so far and the next one, by their places.
fn better(phases: &[LinkPhase], loads: &[u32], best: Option<usize>, i: usize) -> Option<usize>
    requires places { (i < length phases.now) × (length loads.now ≡ length phases.now) }
    requires best { IsBest phases.now loads.now i best }
    ensures { IsBest phases.now loads.now (i + 1) result }
{
    if !is_live(phases[i]) {
        return best;
    }
    match best {
        Some(at) if loads[at] <= loads[i] => Some(at),
        _ => Some(i),
    }
}

/// The slot of the live link with the fewest records, the lowest one on a tie.
pub fn fewest(phases: &[LinkPhase], loads: &[u32]) -> Option<u8>
    requires most { length phases.now ≤ 255 }
    requires equal { length loads.now ≡ length phases.now }
    ensures some { IfSome result (λ slot. IsFewest phases.now loads.now slot) }
    ensures none { IfNone result ((i : ℕ) → is_live_at phases.now i ≡ false) }
{
    let mut best = None;
    for i in 0..phases.len() {
        best = better(phases, loads, best, i);
    }
    let at = best?;
    Some(at as u8 + 1)
}

//! The posts of a wire, without the plain snapshots beside them, move as the definitions of a history
//! say; each law is the contract of a function that does nothing.
ghost use Rattle.std.specs.Prelude.{◌≡◌, ◌++◌, if◌then◌else◌, drop, take, filter, option_map, None};
ghost use Rattle.smc_num.specs.Names.{head};
ghost use Rattle.pipe_model.specs.Wires.{completes_later};
ghost use Rattle.rc_link.specs.Wire.{Queues, placed, unlanded, uncompleted, is_dead, is_reported, may_swallow, landing, completing, swallowing, with_landed, with_completed, with_swallowed};

/// A landing takes the first post that has not landed, unless the link is dead; a write or a CDC message
/// then stands behind those that have landed.
pub fn the_first_post_lands()
    ensures post { (w : Queues) → option_map placed (landing w) ≡ (if is_dead w then None else head (unlanded w)) }
    ensures left { (w : Queues) → unlanded (with_landed (landing w) w) ≡ (if is_dead w then unlanded w else drop 1 (unlanded w)) }
    ensures landed { (w : Queues) → uncompleted (with_landed (landing w) w) ≡ (if is_dead w then uncompleted w else uncompleted w ++ filter (λ p. completes_later p.post) (take 1 (unlanded w))) }
{}

/// A completion takes the first landed post, unless a side has reported the link.
pub fn the_first_landed_post_completes()
    ensures post { (w : Queues) → option_map placed (completing w) ≡ (if is_reported w then None else head (uncompleted w)) }
    ensures left { (w : Queues) → uncompleted (with_completed (completing w) w) ≡ (if is_reported w then uncompleted w else drop 1 (uncompleted w)) }
{}

/// A swallow takes the first post that has not landed, where one may be swallowed.
pub fn the_first_post_is_swallowed()
    ensures post { (w : Queues) → option_map placed (swallowing w) ≡ (if may_swallow w then head (unlanded w) else None) }
    ensures left { (w : Queues) → unlanded (with_swallowed (swallowing w) w) ≡ (if may_swallow w then drop 1 (unlanded w) else unlanded w) }
{}

//! What determines a choice. A law is a function with nothing to do, whose contract is the law.

ghost use Rattle.std.specs.Prelude.{◌≡◌, ◌∷◌, ℕ, List, Some, map};
ghost use Rattle.smc_num.specs.declared.LinkId.{LinkId as Link};
ghost use Rattle.smc_num.specs.declared.LinkPhase.{LinkPhase as Phase};
ghost use Rattle.smc_num.specs.Names.{up_to};
ghost use Rattle.smc_num.specs.Links.{Known, link_at, live_links, phase_at};
ghost use Rattle.failover.specs.Choices.{IsFewest, lightest, AreLoads};
ghost use Rattle.failover.specs.Tables.{AreRising};

/// Only one link is that with the fewest records, the lowest on a tie.
pub fn one_link_has_the_fewest()
    ensures { (phases : List Phase) (loads : List ℕ) (a b : ℕ) → IsFewest phases loads a → IsFewest phases loads b → a ≡ b }
{}

/// The first of the live links that weigh least, by their records, is the one with the fewest, and it is
/// the link of its slot.
pub fn the_lightest_link_has_the_fewest()
    ensures fewest { (weight : Link → ℕ) (slots : ℕ) (known : List Known) (loads : List ℕ) (first : Link) (others : List Link) → AreRising 1 slots known → AreLoads weight known loads → live_links known ≡ first ∷ others
        → IsFewest (map (λ k. phase_at k known) (up_to slots)) loads (lightest weight first others).slot }
    ensures there { (weight : Link → ℕ) (slots : ℕ) (known : List Known) (loads : List ℕ) (first : Link) (others : List Link) → AreRising 1 slots known → AreLoads weight known loads → live_links known ≡ first ∷ others
        → link_at (lightest weight first others).slot known ≡ Some (lightest weight first others) }
{}

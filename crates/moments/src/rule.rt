// What a yield rule is: generic code is proved once, from the laws alone, for every rule that keeps them.
ghost use Rattle.std.specs.Prelude.{◌≡◌};
ghost use Rattle.moments.specs.Meanings.{Meaning, Lawful, passed, above_ceiling};
ghost use Rattle.moments.specs.Partners.{LeastMy, LeastMx, LeastAlong, OnePartner};

use crate::pair::{Direction, Pair};
use crate::triad::Triad;

// A yield rule, by what it means: a ceiling, and for each triad the pairs that it passes. A triad and a pair stay two arguments: the one
// comes from a load case and the other from a designer, and each meets many of the other kind.
pub trait YieldRule {
    ghost meaning: { Self → Meaning };

    // The largest moment of a pair that the rule is asked about.
    fn ceiling(&self) -> u32
        ensures { result ≡ (meaning self.now).ceiling };

    // Whether the triad passes the pair; no where the triad is out of limits or a moment is above the ceiling.
    fn passes(&self, triad: Triad, pair: Pair) -> bool
        ensures { result ≡ passed (meaning self.now) triad pair.mx pair.my };

    ghost lawful: { (r : Self) → Lawful (meaning r) };
}

// A yield rule that also tells the least partner of a moment: none exactly where no partner from 0 to the ceiling passes.
pub trait DirectRule: YieldRule {
    // The least moment in a direction that passes together with `partner` across it.
    fn least_partner(&self, triad: Triad, direction: Direction, partner: u32) -> Option<u32>
        ensures { LeastAlong (Self.YieldRule.meaning self.now) triad direction partner result };

    // The least my that passes together with mx. Neither this nor the next is `final`: a rule behind a trait object may be asked too.
    fn least_my(&self, triad: Triad, mx: u32) -> Option<u32>
        ensures { LeastMy (Self.YieldRule.meaning self.now) triad mx result }
    {
        self.least_partner(triad, Direction::Y, mx)
    }

    // The least mx that passes together with my.
    fn least_mx(&self, triad: Triad, my: u32) -> Option<u32>
        ensures { LeastMx (Self.YieldRule.meaning self.now) triad my result }
    {
        self.least_partner(triad, Direction::X, my)
    }
}

// Whether a moment of the pair is above the rule's ceiling.
pub fn above_ceiling<R: YieldRule>(rule: &R, pair: Pair) -> bool
    ensures { result ≡ above_ceiling (R.YieldRule.meaning rule.now) pair }
{
    !pair.within(rule.ceiling())
}

// A least partner is the only answer.
pub fn one_partner()
    ensures { OnePartner }
{}

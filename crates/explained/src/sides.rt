// Both sides of each inequality of a rule, so that an account can show by how much a pair passes or fails.
ghost use Rattle.std.specs.Prelude.{◌≡◌, ℕ, if◌then◌else◌, Some, None};
ghost use Rattle.moments.specs.Meanings.{asked};
ghost use Rattle.moments.specs.Triads.{negated_triad};
ghost use Rattle.moments.specs.declared.triad.Triad.{Triad};
ghost use Rattle.explained.specs.Holding.{holds, all_hold};
ghost use Rattle.explained.specs.Texts.{side_text, sides_text};
ghost use Rattle.explained.specs.declared.sides.Sides.{Sides};

use moments::pair::Pair;
use moments::rule::{DirectRule, YieldRule};
use moments::triad::Triad;
use moments::turned::Turned;
use std::fmt;

// One inequality: what the pair gives and what the load case needs. It holds where the first is at least the second.
// The numbers are wide enough for the product of any two margins.
#[derive(Clone, Copy, PartialEq, Eq, Debug)]
pub struct Side {
    pub given: i128,
    pub needed: i128,
}

// The inequalities of a rule: one for each bar direction, and for some rules one on a product of the two.
#[derive(Clone, Copy, PartialEq, Eq, Debug)]
pub struct Sides {
    pub mx: Side,
    pub my: Side,
    pub product: Option<Side>,
}

impl Side {
    // Whether the inequality holds.
    pub fn holds(self) -> bool
        ensures { result ≡ holds self }
    {
        self.needed <= self.given
    }
}

impl fmt::Display for Side {
    ghost output = { λ it. Some (side_text it) };

    fn fmt<W: fmt::Write>(&self, f: &mut fmt::Formatter<W>) -> fmt::Result {
        let sign = if self.holds() { ">=" } else { "<" };
        write!(f, "{} {sign} {}", self.given, self.needed)
    }
}

impl fmt::Display for Sides {
    ghost output = { λ it. Some (sides_text it) };

    fn fmt<W: fmt::Write>(&self, f: &mut fmt::Formatter<W>) -> fmt::Result {
        let Sides { mx, my, product } = self;
        match product {
            Some(product) => write!(
                f,
                "mx {mx}, my {my}, product of both margins against Mxy squared {product}"
            ),
            None => write!(f, "mx {mx}, my {my}"),
        }
    }
}

// A rule that explains its answer: it passes a pair exactly where each of its inequalities holds.
pub trait Explained: DirectRule {
    ghost inequalities: { Self → Triad → ℕ → ℕ → Sides };

    // Both sides of each inequality; none where the triad is out of limits or a moment is above the ceiling.
    fn sides(&self, triad: Triad, pair: Pair) -> Option<Sides>
        ensures { result ≡ (if asked (Self.YieldRule.meaning self.now) triad pair.mx pair.my then Some (inequalities self.now triad pair.mx pair.my) else None) };

    ghost decides: { (r : Self) (t : Triad) (x y : ℕ) → all_hold (inequalities r t x y) ≡ (Self.YieldRule.meaning r).passing t x y };
}

// The sides, where the rule is asked about the triad and the pair; else none.
pub(crate) fn if_asked<R: YieldRule>(
    rule: &R,
    triad: Triad,
    pair: Pair,
    sides: Sides,
) -> Option<Sides>
    ensures { result ≡ (if asked (R.YieldRule.meaning rule.now) triad pair.mx pair.my then Some sides else None) }
{
    (triad.in_limits() && pair.within(rule.ceiling())).then_some(sides)
}

// A rule turned over has the inequalities of the rule for the triad with all three moments negated.
impl<R: Explained> Explained for Turned<R> {
    ghost inequalities = { λ r t. R.Explained.inequalities r.rule (negated_triad t) };

    ghost decides = { λ r t x y. R.Explained.decides r.rule (negated_triad t) x y };

    fn sides(&self, triad: Triad, pair: Pair) -> Option<Sides> {
        let turned = triad.negated()?;
        self.rule.sides(turned, pair)
    }
}

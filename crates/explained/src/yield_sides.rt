ghost use Rattle.std.specs.Prelude.{◌≡◌};
ghost use Rattle.explained.specs.Inequalities.{product_side, yield_sides};
ghost use Rattle.std.proofs.Common.{rules};

use crate::margins::{against, times};
use crate::sides::{Explained, Side, Sides, if_asked};
use moments::pair::Pair;
use moments::triad::Triad;
use rules::direction::excess;
use rules::yield_rule::Yield;

// No `sides` for all rules in the trait: a rule turned over has sides only where the triad can be negated.
impl Explained for Yield {
    ghost inequalities = { λ _. yield_sides };

    ghost decides = { Prim.search rules };

    fn sides(&self, triad: Triad, pair: Pair) -> Option<Sides> {
        if_asked(self, triad, pair, both_sides(triad, pair))
    }
}

// Both sides of each inequality of the criterion.
fn both_sides(triad: Triad, pair: Pair) -> Sides
    ensures { result ≡ yield_sides triad pair.mx pair.my }
{
    Sides {
        mx: against(pair.mx, i64::from(triad.mx)),
        my: against(pair.my, i64::from(triad.my)),
        product: Some(product(triad, pair)),
    }
}

// The product of both margins against the square of the twisting moment.
fn product(triad: Triad, pair: Pair) -> Side
    ensures { result ≡ product_side triad pair.mx pair.my }
{
    let x = excess(pair.mx, triad.mx);
    let y = excess(pair.my, triad.my);
    let twist = i64::from(triad.mxy);
    Side {
        given: times(x, y),
        needed: times(twist, twist),
    }
}

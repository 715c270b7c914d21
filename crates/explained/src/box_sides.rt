ghost use Rattle.std.specs.Prelude.{◌≡◌};
ghost use Rattle.explained.specs.Inequalities.{box_sides};
ghost use Rattle.std.proofs.Common.{rules};

use crate::margins::against;
use crate::sides::{Explained, Sides, if_asked};
use moments::pair::Pair;
use moments::triad::Triad;
use rules::box_rule::BoxRule;
use rules::direction::topped;

// No `sides` for all rules in the trait: a rule turned over has sides only where the triad can be negated.
impl Explained for BoxRule {
    ghost inequalities = { λ _. box_sides };

    ghost decides = { Prim.search rules };

    fn sides(&self, triad: Triad, pair: Pair) -> Option<Sides> {
        if_asked(self, triad, pair, both_sides(triad, pair))
    }
}

// Both sides of each inequality of the box.
fn both_sides(triad: Triad, pair: Pair) -> Sides
    ensures { result ≡ box_sides triad pair.mx pair.my }
{
    let twist = triad.mxy.unsigned_abs();
    Sides {
        mx: against(pair.mx, topped(triad.mx, twist)),
        my: against(pair.my, topped(triad.my, twist)),
        product: None,
    }
}

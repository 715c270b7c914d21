ghost use Rattle.std.specs.Prelude.{Some};
ghost use Rattle.explained.specs.Inequalities.{chosen_meaning, chosen_sides};
ghost use Rattle.explained.specs.Texts.{chosen_text};
ghost use Rattle.explained.specs.declared.chosen.Chosen.TheVariants.{Yield, Box};
ghost use Rattle.rules.specs.Yielding.{yield_lawful};
ghost use Rattle.rules.specs.Boxing.{box_lawful};
ghost use Rattle.std.proofs.Common.{rules};

use crate::sides::{Explained, Sides};
use moments::pair::{Direction, Pair};
use moments::rule::{DirectRule, YieldRule};
use moments::triad::Triad;
use rules::box_rule::BoxRule;
use rules::yield_rule::Yield;
use std::fmt;

// A delivered rule, chosen by its name: it asks the rule of that name. Each method has its own `match`, since no contract can speak
// of a closure over a `&dyn` rule, and no function may hand a `dyn` out.
#[derive(Clone, Copy, PartialEq, Eq, Debug)]
pub enum Chosen {
    Yield,
    Box,
}

impl YieldRule for Chosen {
    ghost meaning = { chosen_meaning };

    ghost lawful = { elim [ Yield ↦ yield_lawful | Box ↦ box_lawful ] };

    fn ceiling(&self) -> u32 {
        match self {
            Chosen::Yield => Yield.ceiling(),
            Chosen::Box => BoxRule.ceiling(),
        }
    }

    fn passes(&self, triad: Triad, pair: Pair) -> bool {
        match self {
            Chosen::Yield => Yield.passes(triad, pair),
            Chosen::Box => BoxRule.passes(triad, pair),
        }
    }
}

impl DirectRule for Chosen {
    fn least_partner(&self, triad: Triad, direction: Direction, partner: u32) -> Option<u32> {
        match self {
            Chosen::Yield => Yield.least_partner(triad, direction, partner),
            Chosen::Box => BoxRule.least_partner(triad, direction, partner),
        }
    }
}

impl Explained for Chosen {
    ghost inequalities = { chosen_sides };

    ghost decides = { Prim.search rules };

    fn sides(&self, triad: Triad, pair: Pair) -> Option<Sides> {
        match self {
            Chosen::Yield => Yield.sides(triad, pair),
            Chosen::Box => BoxRule.sides(triad, pair),
        }
    }
}

impl fmt::Display for Chosen {
    ghost output = { λ it. Some (chosen_text it) };

    fn fmt<W: fmt::Write>(&self, f: &mut fmt::Formatter<W>) -> fmt::Result {
        f.write_str(match self {
            Chosen::Yield => "the yield rule",
            Chosen::Box => "the box rule",
        })
    }
}

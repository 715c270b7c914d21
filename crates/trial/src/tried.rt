ghost use Rattle.trial.specs.Trials.{Tried};

use explained::sides::{Explained, Sides};
use moments::pair::Pair;
use moments::triad::Triad;

// What one load case says to a trial pair: whether it passes, both sides of each inequality, and the least partner of each moment.
#[derive(Clone, Copy, PartialEq, Eq, Debug)]
pub struct Trial {
    // no `Option` around the others: they are told of a pair that fails too
    pub passed: bool,
    pub sides: Sides,
    pub least_my: Option<u32>,
    pub least_mx: Option<u32>,
}

// Tries a pair on one load case; none where the triad is out of limits or a moment is above the rule's ceiling.
pub(crate) fn try_pair<R: Explained>(rule: &R, triad: Triad, pair: Pair) -> Option<Trial>
    ensures { Tried (R.YieldRule.meaning rule.now) (R.Explained.inequalities rule.now) triad pair result }
{
    let sides = rule.sides(triad, pair)?;
    Some(Trial {
        passed: rule.passes(triad, pair),
        sides,
        least_my: rule.least_my(triad, pair.mx),
        least_mx: rule.least_mx(triad, pair.my),
    })
}

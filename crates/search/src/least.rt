ghost use Rattle.moments.specs.Pairs.{pair_along};
ghost use Rattle.search.specs.Questions.{SafeFor};
ghost use Rattle.search.specs.Steps.{SmallestIfAny};

use crate::question::Question;
use moments::pair::Direction;
use moments::rule::DirectRule;

impl<R: DirectRule> Question<'_, R> {
    // The least moment in a direction that is safe together with `partner` across it, or none where there is none.
    pub fn least_safe(&self, direction: Direction, partner: u32) -> Option<u32>
        ensures { SmallestIfAny (λ z. SafeFor R.YieldRule.meaning self.now (pair_along direction z partner)) result }
    {
        let Question { rule, lines, floor } = *self;
        let ceiling = rule.ceiling();
        let low = floor.moment(direction);
        if partner < floor.moment(direction.across()) || ceiling < partner || ceiling < low {
            return None;
        }
        let mut need = low;
        // a plain loop over the standing lines: the form laid down for questions to all cases
        for line in lines {
            need = need.max(rule.least_partner(line.triad, direction, partner)?);
        }
        Some(need)
    }
}

ghost use Rattle.search.specs.Best.{Safe, BestIfAny};
ghost use Rattle.search.specs.Questions.{SafeFor};
ghost use Rattle.search.specs.Rankings.{least_mx};

use crate::question::Question;
use crate::ranking::{LeastMx, Ranking};
use moments::pair::Pair;
use moments::rule::DirectRule;
use table::line::Line;

// The best safe pair by a ranking, or none where no pair is safe.
pub fn best_by<R: DirectRule, K: Ranking>(
    rule: &R,
    ranking: &K,
    lines: &[Line],
    floor: Pair,
) -> Option<Pair>
    ensures { BestIfAny (K.Ranking.ahead ranking.now) (Safe (R.YieldRule.meaning rule.now) lines.now floor) result }
{
    Question { rule, lines, floor }.best(ranking)
}

// The safe pair with the smallest sum, and among those the smallest mx; none where no pair is safe.
pub fn best_pair<R: DirectRule>(rule: &R, lines: &[Line], floor: Pair) -> Option<Pair>
    ensures { BestIfAny least_mx (Safe (R.YieldRule.meaning rule.now) lines.now floor) result }
{
    best_by(rule, &LeastMx, lines, floor)
}

impl<R: DirectRule> Question<'_, R> {
    // The best safe pair by a ranking, or none where no pair is safe.
    pub fn best<K: Ranking>(&self, ranking: &K) -> Option<Pair>
        ensures { BestIfAny (K.Ranking.ahead ranking.now) (SafeFor R.YieldRule.meaning self.now) result }
    {
        let first = self.seed()?;
        Some(self.walk(ranking, first))
    }
}

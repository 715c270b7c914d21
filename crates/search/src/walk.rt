ghost use Rattle.std.specs.Prelude.{◌^◌, ◌<◌};
ghost use Rattle.moments.specs.Pairs.{sum};
ghost use Rattle.search.specs.Best.{Best};
ghost use Rattle.search.specs.Questions.{SafeFor};
ghost use Rattle.search.specs.Steps.{PreferredUpTo, NextIfAny, Improved};

use crate::question::Question;
use crate::ranking::Ranking;
use moments::pair::{Direction, Pair};
use moments::rule::DirectRule;

// The largest my with which a pair, from the column `from` on, can be preferred to `best`; none where no pair can.
fn highest_preferred<K: Ranking>(ranking: &K, best: Pair, from: u32) -> Option<u32>
    requires { sum best < 2 ^ 32 }
    ensures { PreferredUpTo (K.Ranking.ahead ranking.now) best from result }
{
    let my = (best.mx + best.my).checked_sub(from)?;
    if ranking.prefers(Pair { mx: from, my }, best) {
        Some(my)
    } else {
        my.checked_sub(1)
    }
}

// The best pair so far is passed from step to step: a holder for it would be made anew at each turn of the walk.
impl<R: DirectRule> Question<'_, R> {
    // The next column, from `from` on, that may hold a safe pair that is preferred to `best`.
    fn next_column<K: Ranking>(&self, ranking: &K, best: Pair, from: u32) -> Option<u32>
        requires { SafeFor R.YieldRule.meaning self.now best }
        ensures { NextIfAny (K.Ranking.ahead ranking.now) (SafeFor R.YieldRule.meaning self.now) best (R.YieldRule.meaning self.now.rule.now).ceiling from result }
    {
        let ceiling = self.rule.ceiling();
        if ceiling < from {
            return None;
        }
        let row = highest_preferred(ranking, best, from)?.min(ceiling);
        Some(self.least_safe(Direction::X, row)?.max(from))
    }

    // The better of `best` and the best safe pair of one column.
    fn with_column<K: Ranking>(&self, ranking: &K, best: Pair, mx: u32) -> Pair
        requires { SafeFor R.YieldRule.meaning self.now best }
        ensures { Improved (K.Ranking.ahead ranking.now) (SafeFor R.YieldRule.meaning self.now) best mx result }
    {
        match self.lowest(mx) {
            Some(pair) if ranking.prefers(pair, best) => pair,
            _ => best,
        }
    }

    // The best pair, from a safe pair to begin with. A row tells the next column that is of interest, and only there the column is asked:
    // the closer the sum of the pair to begin with is to the least, the fewer columns those are.
    pub fn walk<K: Ranking>(&self, ranking: &K, seed: Pair) -> Pair
        requires { SafeFor R.YieldRule.meaning self.now seed }
        ensures { Best (K.Ranking.ahead ranking.now) (SafeFor R.YieldRule.meaning self.now) result }
    {
        let mut best = seed;
        let mut from = self.floor.mx;
        while let Some(column) = self.next_column(ranking, best, from) {
            if column == from {
                best = self.with_column(ranking, best, column);
                from = column + 1;
            } else {
                from = column;
            }
        }
        best
    }
}

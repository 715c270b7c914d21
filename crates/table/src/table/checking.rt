ghost use Rattle.std.specs.Prelude.{◌≡◌};
ghost use Rattle.table.specs.Failing.{passed_by, first_failing, FirstToFail};
ghost use Rattle.table.specs.Standing.{standing};

use crate::lines;
use crate::table::Table;
use moments::pair::Pair;
use moments::rule::YieldRule;

impl Table {
    // The number of the first line, in rising order, that does not pass the pair by the rule; none where all pass.
    pub fn first_failing<R: YieldRule>(&self, rule: &R, pair: Pair) -> Option<u32>
        ensures value { result ≡ first_failing (passed_by (R.YieldRule.meaning rule.now) pair) (standing self.now) }
        ensures lowest { FirstToFail (passed_by (R.YieldRule.meaning rule.now) pair) (standing self.now) result }
    {
        lines::first_failing(rule, self.standing(), pair)
    }
}

ghost use Rattle.search.specs.Questions.{SafeFor};
ghost use Rattle.search.specs.Steps.{LowestIfAny, SomeOfThem};

use crate::question::Question;
use moments::pair::{Direction, Pair};
use moments::rule::DirectRule;
use std::cmp::Reverse;

impl<R: DirectRule> Question<'_, R> {
    // The lowest safe pair of a column, or none where the column has no safe pair.
    pub fn lowest(&self, mx: u32) -> Option<Pair>
        ensures { LowestIfAny (SafeFor R.YieldRule.meaning self.now) mx result }
    {
        let my = self.least_safe(Direction::Y, mx)?;
        Some(Pair { mx, my })
    }

    // The least sum of a safe pair in a column, the smaller the greater; none, which is less than all, where the column has no safe pair.
    fn column_sum(&self, mx: u32) -> Option<Reverse<u64>> {
        self.lowest(mx).map(|pair| Reverse(pair.sum()))
    }

    // A column whose least sum is close to the least of all, for most rules: the sums fall and then rise along the columns,
    // so a third of the columns can be given up in each turn. Any column would do for the search, only more slowly.
    fn near_column(&self) -> u32 {
        let mut low = self.floor.mx;
        let mut high = self.rule.ceiling();
        while low < high {
            let third = (high - low) / 3;
            let left = low + third;
            let right = high - third;
            if self.column_sum(left) > self.column_sum(right) {
                high = right - 1;
            } else {
                low = left + 1;
            }
        }
        low
    }

    // A safe pair to begin the search with, or none where no pair is safe.
    pub fn seed(&self) -> Option<Pair>
        ensures { SomeOfThem (SafeFor R.YieldRule.meaning self.now) result }
    {
        let near = self.near_column();
        // no `or_else`: its closure would have to carry the contract of `lowest`, which is no plainer
        match self.lowest(near) {
            None => self.lowest(self.rule.ceiling()),
            found => found,
        }
    }
}

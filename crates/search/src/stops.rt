ghost use Rattle.std.specs.Prelude.{◌≡◌, true};
ghost use Rattle.table.specs.Lines.{climbing};
ghost use Rattle.table.specs.Standing.{standing};
ghost use Rattle.search.specs.Best.{LeastSum};
ghost use Rattle.search.specs.Carried.{Answered};
ghost use Rattle.search.specs.Questions.{SafeFor};
ghost use Rattle.search.specs.Stops.{Stopped};

use crate::question::Question;
use crate::ranking::Ranking;
use crate::stop::{Carried, Stop};
use moments::pair::{Direction, Pair};
use moments::refusal::Refusal;
use moments::rule::{DirectRule, YieldRule, above_ceiling};
use table::lines::first_failing;
use table::table::Table;

// The best pair of a face by a ranking, and what stops each of its moments; refused where a floor is above the ceiling.
pub fn best_with_stops<R: DirectRule, K: Ranking>(
    rule: &R,
    ranking: &K,
    table: &Table,
    floor: Pair,
) -> Result<Carried, Refusal>
    ensures { Answered (K.Ranking.ahead ranking.now) (R.YieldRule.meaning rule.now) (standing table.now) floor result }
{
    if above_ceiling(rule, floor) {
        return Err(Refusal::FloorAboveCeiling);
    }
    let lines = table.standing();
    let question = Question { rule, lines, floor };
    let pair = question.best(ranking).unwrap();
    let mx_stop = question.stop(pair, Direction::X);
    let my_stop = question.stop(pair, Direction::Y);
    Ok(Carried {
        pair,
        mx_stop,
        my_stop,
    })
}

impl<R: YieldRule> Question<'_, R> {
    // What stops the moment in a direction of a safe pair of the least sum.
    fn stop(&self, best: Pair, direction: Direction) -> Stop
        requires rising { climbing self.now.lines.now ≡ true }
        requires least { LeastSum (SafeFor R.YieldRule.meaning self.now) best }
        ensures { Stopped (R.YieldRule.meaning self.now.rule.now) self.now.lines.now self.now.floor best direction result }
    {
        let moment = best.moment(direction);
        if moment == self.floor.moment(direction) {
            return Stop::Floor;
        }
        let lower = Pair::along(direction, moment - 1, best.moment(direction.across()));
        let number = first_failing(self.rule, self.lines, lower).unwrap();
        Stop::Case(number)
    }
}

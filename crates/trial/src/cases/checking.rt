ghost use Rattle.std.specs.Prelude.{◌≡◌};
ghost use Rattle.trial.specs.Checking.{checked, LowestNamed};

use crate::cases::Cases;
use moments::pair::Pair;
use moments::refusal::Refusal;
use moments::rule::{YieldRule, above_ceiling};
use table::lines::first_failing;

impl Cases {
    // The first case that fails the trial pair; refused where a trial moment is above the rule's ceiling.
    pub fn check<R: YieldRule>(&self, rule: &R, pair: Pair) -> Result<Option<u32>, Refusal>
        ensures value { result ≡ checked (R.YieldRule.meaning rule.now) pair self.now }
        ensures lowest { LowestNamed (R.YieldRule.meaning rule.now) pair self.now result }
    {
        if above_ceiling(rule, pair) {
            return Err(Refusal::TrialAboveCeiling);
        }
        Ok(first_failing(rule, self.list.as_slice(), pair))
    }
}

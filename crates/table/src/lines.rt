// Lines in rising order, whoever holds them. They are plain slices, and no type that carries the order: so they are handed to callers.
ghost use Rattle.std.specs.Prelude.{◌≡◌, true};
ghost use Rattle.table.specs.Changes.{Admits};
ghost use Rattle.table.specs.Failing.{passed_by, first_failing, FirstToFail};
ghost use Rattle.table.specs.Lines.{is_number, climbing};
ghost use Rattle.table.specs.Places.{Placed};

use crate::line::Line;
use moments::limits::LAST_CASE;
use moments::pair::Pair;
use moments::refusal::Refusal;
use moments::rule::YieldRule;
use moments::triad::Triad;

// Whether a load case may have that number.
pub(crate) fn is_case_number(number: u32) -> bool
    ensures { result ≡ is_number number }
{
    (1..=LAST_CASE).contains(&number)
}

// Where the line of that number stands in lines that rise, or else where it would stand.
pub(crate) fn place(lines: &[Line], number: u32) -> Result<usize, usize>
    ensures { climbing lines.now ≡ true → Placed number lines.now result }
{
    lines.binary_search_by_key(&number, |line| line.number)
}

// Where a line that may be entered into lines that rise would stand, or which refusal is due, however many lines stand.
pub fn admit(lines: &[Line], number: u32, triad: Triad) -> Result<usize, Refusal>
    ensures { climbing lines.now ≡ true → Admits number triad lines.now result }
{
    if !is_case_number(number) {
        return Err(Refusal::CaseNumber);
    }
    if !triad.in_limits() {
        return Err(Refusal::Moment);
    }
    match place(lines, number) {
        Ok(_) => Err(Refusal::Standing),
        Err(at) => Ok(at),
    }
}

// The number of the first line that does not pass the pair by the rule, which is the lowest where the lines rise; none where all pass.
pub fn first_failing<R: YieldRule>(rule: &R, lines: &[Line], pair: Pair) -> Option<u32>
    ensures value { result ≡ first_failing (passed_by (R.YieldRule.meaning rule.now) pair) lines.now }
    ensures lowest { climbing lines.now ≡ true → FirstToFail (passed_by (R.YieldRule.meaning rule.now) pair) lines.now result }
{
    // a plain loop over the standing lines: the form laid down for questions to all cases
    for line in lines {
        if !rule.passes(line.triad, pair) {
            return Some(line.number);
        }
    }
    None
}

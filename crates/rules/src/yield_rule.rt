ghost use Rattle.std.specs.Prelude.{◌≡◌, ◌≤◌, T, Decides};
ghost use Rattle.moments.specs.Partners.{Partner};
ghost use Rattle.moments.specs.Meanings.{passed};
ghost use Rattle.moments.specs.Triads.{in_limits};
ghost use Rattle.rules.specs.Criteria.{delivered_ceiling, yields_at, yield_meaning, Yields};
ghost use Rattle.rules.specs.Yielding.{yield_lawful};

use crate::direction::{CEILING, least_factor, least_reaching, margin, square};
use moments::pair::{Direction, Pair};
use moments::rule::{DirectRule, YieldRule};
use moments::triad::Triad;

// The yield criterion: each yield moment is at least its bending moment, and the product of the two margins is at least the
// square of the twisting moment.
#[derive(Clone, Copy, PartialEq, Eq, Debug)]
pub struct Yield;

// Both delivered rules have these two blocks: blocks for a parameter would put a wrapper between a rule and its name.
impl YieldRule for Yield {
    ghost meaning = { λ _. yield_meaning };

    ghost lawful = { λ r. yield_lawful };

    fn ceiling(&self) -> u32 {
        CEILING
    }

    fn passes(&self, triad: Triad, pair: Pair) -> bool
        ensures answer { result ≡ passed yield_meaning triad pair.mx pair.my }
        ensures criterion { T (in_limits triad) → pair.mx ≤ delivered_ceiling → pair.my ≤ delivered_ceiling → Decides result (Yields triad pair.mx pair.my) }
    {
        triad.in_limits() && pair.within(CEILING) && yields(triad, pair)
    }
}

impl DirectRule for Yield {
    fn least_partner(&self, triad: Triad, direction: Direction, partner: u32) -> Option<u32> {
        least_my(triad.seen_along(direction), partner)
    }
}

// Whether the pair meets the criterion, by margins that are wide enough for their product.
fn yields(triad: Triad, pair: Pair) -> bool
    ensures { result ≡ yields_at triad pair.mx pair.my }
{
    let Some(x) = margin(pair.mx, triad.mx) else {
        return false;
    };
    let Some(y) = margin(pair.my, triad.my) else {
        return false;
    };
    square(triad.mxy) as u128 <= x as u128 * y as u128
}

// The least my that goes with mx.
fn least_my(triad: Triad, mx: u32) -> Option<u32>
    ensures { Partner delivered_ceiling (λ y. passed yield_meaning triad mx y) result }
{
    if !triad.in_limits() || CEILING < mx {
        return None;
    }
    let room = margin(mx, triad.mx)?;
    let rise = least_factor(room, square(triad.mxy))?;
    least_reaching(triad.my, rise)
}

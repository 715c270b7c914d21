ghost use Rattle.std.specs.Prelude.{◌≡◌, ◌≤◌, T, Decides};
ghost use Rattle.moments.specs.Triads.{in_limits};
ghost use Rattle.moments.specs.Partners.{Partner};
ghost use Rattle.moments.specs.Meanings.{passed};
ghost use Rattle.rules.specs.Criteria.{delivered_ceiling, boxed_at, box_meaning, Boxed};
ghost use Rattle.rules.specs.Boxing.{box_lawful};

use crate::direction::{CEILING, least_reaching, reaches};
use moments::pair::{Direction, Pair};
use moments::rule::{DirectRule, YieldRule};
use moments::triad::Triad;

// The box: each yield moment reaches its bending moment with the size of the twisting moment on top.
#[derive(Clone, Copy, PartialEq, Eq, Debug)]
pub struct BoxRule;

// Both delivered rules have these two blocks: blocks for a parameter would put a wrapper between a rule and its name.
impl YieldRule for BoxRule {
    ghost meaning = { λ _. box_meaning };

    ghost lawful = { λ r. box_lawful };

    fn ceiling(&self) -> u32 {
        CEILING
    }

    fn passes(&self, triad: Triad, pair: Pair) -> bool
        ensures answer { result ≡ passed box_meaning triad pair.mx pair.my }
        ensures criterion { T (in_limits triad) → pair.mx ≤ delivered_ceiling → pair.my ≤ delivered_ceiling → Decides result (Boxed triad pair.mx pair.my) }
    {
        triad.in_limits() && pair.within(CEILING) && boxed(triad, pair)
    }
}

impl DirectRule for BoxRule {
    fn least_partner(&self, triad: Triad, direction: Direction, partner: u32) -> Option<u32> {
        least_my(triad.seen_along(direction), partner)
    }
}

// Whether the pair meets the box.
fn boxed(triad: Triad, pair: Pair) -> bool
    ensures { result ≡ boxed_at triad pair.mx pair.my }
{
    let twist = triad.mxy.unsigned_abs();
    reaches(pair.mx, triad.mx, twist) && reaches(pair.my, triad.my, twist)
}

// The least my that goes with mx.
fn least_my(triad: Triad, mx: u32) -> Option<u32>
    ensures { Partner delivered_ceiling (λ y. passed box_meaning triad mx y) result }
{
    if !triad.in_limits() || CEILING < mx {
        return None;
    }
    let twist = triad.mxy.unsigned_abs();
    if reaches(mx, triad.mx, twist) {
        least_reaching(triad.my, twist as u64)
    } else {
        None
    }
}

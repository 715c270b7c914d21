// One bar direction at a time: a yield moment against a bending moment.
ghost use Rattle.std.specs.Prelude.{◌≡◌, ◌*◌, pos, ◌+ℤ◌, ◌-ℤ◌, int_le, unsigned_abs};
ghost use Rattle.moments.specs.Partners.{Partner};
ghost use Rattle.rules.specs.Margins.{Margin, Factor};
ghost use Rattle.rules.specs.Criteria.{delivered_ceiling};

use moments::limits::MOMENT_LIMIT;

// The ceiling of the delivered rules: twice the largest moment of a load case.
pub const CEILING: u32 = 2 * MOMENT_LIMIT as u32;

// How far a yield moment stands above a bending moment, below 0 where it stands below.
pub fn excess(moment: u32, bending: i32) -> i64
    ensures { result ≡ pos moment -ℤ bending }
{
    i64::from(moment) - i64::from(bending)
}

// The same as a number; none where it is below 0.
pub(crate) fn margin(moment: u32, bending: i32) -> Option<u64>
    ensures { Margin moment bending result }
{
    let above = excess(moment, bending);
    (above >= 0).then(|| above.unsigned_abs())
}

// A bending moment with `more` on top.
pub fn topped(bending: i32, more: u32) -> i64
    ensures { result ≡ bending +ℤ pos more }
{
    i64::from(bending) + i64::from(more)
}

// Whether a yield moment reaches a bending moment with `more` on top.
pub(crate) fn reaches(moment: u32, bending: i32, more: u32) -> bool
    ensures { result ≡ int_le (bending +ℤ pos more) (pos moment) }
{
    topped(bending, more) <= i64::from(moment)
}

// The least yield moment that reaches a bending moment with `more` on top; none where the ceiling does not.
pub(crate) fn least_reaching(bending: i32, more: u64) -> Option<u32>
    ensures { Partner delivered_ceiling (λ m. int_le (bending +ℤ pos more) (pos m)) result }
{
    let least = more.saturating_add_signed(i64::from(bending));
    u32::try_from(least).ok().filter(|least| *least <= CEILING)
}

// The least number that, times `factor`, is at least `product`; none where there is none.
pub(crate) fn least_factor(factor: u64, product: u64) -> Option<u64>
    ensures { Factor factor product result }
{
    if factor != 0 {
        Some(product.div_ceil(factor))
    } else if product == 0 {
        Some(0)
    } else {
        None
    }
}

// The square of a moment.
pub(crate) fn square(moment: i32) -> u64
    ensures { result ≡ unsigned_abs moment * unsigned_abs moment }
{
    let size = moment.unsigned_abs() as u64;
    size * size
}

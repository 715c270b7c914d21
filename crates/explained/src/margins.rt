// A yield moment against what is needed, as integers.
ghost use Rattle.std.specs.Prelude.{◌≡◌, pos, ◌*ℤ◌};
ghost use Rattle.explained.specs.Holding.{inequality};

use crate::sides::Side;

// A yield moment against what it has to reach.
pub(crate) fn against(moment: u32, needed: i64) -> Side
    ensures { result ≡ inequality (pos moment) needed }
{
    Side {
        given: i128::from(moment),
        needed: i128::from(needed),
    }
}

// A product, wide enough for any two factors.
pub(crate) fn times(a: i64, b: i64) -> i128
    ensures { result ≡ a *ℤ b }
{
    i128::from(a) * i128::from(b)
}

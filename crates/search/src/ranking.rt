ghost use Rattle.std.specs.Prelude.{◌≡◌, Bool};
ghost use Rattle.moments.specs.declared.pair.Pair.{Pair};
ghost use Rattle.search.specs.Rankings.{Ranks, least_mx};
ghost use Rattle.std.proofs.Common.{rules};

use moments::pair::Pair;

// Which of two pairs is preferred: an order of all pairs that never prefers a larger sum.
pub trait Ranking {
    ghost ahead: { Self → Pair → Pair → Bool };

    // Whether `one` is preferred to `other`.
    fn prefers(&self, one: Pair, other: Pair) -> bool
        ensures { result ≡ ahead self.now one other };

    ghost ranks: { (k : Self) → Ranks (ahead k) };
}

// The smaller sum first, and among pairs of one sum the smaller mx.
#[derive(Clone, Copy)]
pub struct LeastMx;

impl Ranking for LeastMx {
    ghost ahead = { λ _. least_mx };

    ghost ranks = { Prim.search rules };

    fn prefers(&self, one: Pair, other: Pair) -> bool {
        (one.sum(), one.mx) < (other.sum(), other.mx)
    }
}

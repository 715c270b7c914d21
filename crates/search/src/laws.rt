ghost use Rattle.search.specs.Existence.{BestExists, OneBest};

// There is a best pair by every ranking, for all load cases within the limits and all floors up to the ceiling.
pub fn best_exists()
    ensures { BestExists }
{}

// There is no second one.
pub fn one_best()
    ensures { OneBest }
{}

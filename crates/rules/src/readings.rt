ghost use Rattle.rules.specs.Readings.{Readings};

// The tests of the delivered rules say the same as their inequalities, for all triads and pairs.
pub fn readings_agree()
    ensures { Readings }
{}

// Load cases that look random and are the same in every run, for the programs that try the search out.
#![tactic(auto)]

ghost use Rattle.std.specs.Prelude.{◌≤◌};

use moments::limits::MOMENT_LIMIT;
use moments::triad::Triad;

// A source of such numbers.
#[derive(Clone, Copy)]
pub struct Random {
    state: u64,
}

impl Random {
    // The numbers that begin at a seed.
    pub fn new(seed: u64) -> Random {
        Random { state: seed }
    }

    // A number from 0 to `most`.
    pub fn up_to(&mut self, most: u32) -> u32
        ensures { result ≤ most }
    {
        self.state = self
            .state
            .wrapping_mul(6_364_136_223_846_793_005)
            .wrapping_add(1_442_695_040_888_963_407);
        let high = self.state >> 33;
        (high % (most as u64 + 1)) as u32
    }

    // A triad with moments of a size up to `most`, or up to the limit where that is less.
    pub fn triad(&mut self, most: u32) -> Triad {
        Triad {
            mx: self.moment(most),
            my: self.moment(most),
            mxy: self.moment(most),
        }
    }

    // A moment of a size up to `most`, of either sign.
    fn moment(&mut self, most: u32) -> i32 {
        let size = self.up_to(most.min(MOMENT_LIMIT as u32)) as i32;
        if self.up_to(1) == 0 { size } else { -size }
    }
}

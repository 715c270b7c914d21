ghost use Rattle.std.specs.Prelude.{◌≡◌};
ghost use Rattle.script.specs.Commands.{rule_for};

use explained::chosen::Chosen;
use moments::pair::{Face, Pair};
use moments::triad::Triad;

// The yield rule of each face.
#[derive(Clone, Copy, PartialEq, Eq, Debug)]
pub struct Rules {
    pub bottom: Chosen,
    pub top: Chosen,
}

impl Rules {
    // The rule of a face.
    pub fn of(self, face: Face) -> Chosen
        ensures { result ≡ rule_for self face }
    {
        match face {
            Face::Bottom => self.bottom,
            Face::Top => self.top,
        }
    }
}

// What a line of a script asks for.
#[derive(Clone, Copy, PartialEq, Eq, Debug)]
pub enum Command {
    // the yield rules of the two faces
    Rules(Rules),
    // a load case, by its number and its moments, as every call that enters one is laid down to take it
    Enter { number: u32, triad: Triad },
    // a trial pair of yield moments on a face; the face only picks the rule that the pair is tried by
    Check { face: Face, pair: Pair },
}

ghost use Rattle.std.specs.Prelude.{◌≡◌, true, []};
ghost use Rattle.table.specs.Lines.{climbing, all_sound};
ghost use Rattle.trial.specs.Entering.{Entering};

use crate::cases::Cases;
use crate::trouble::Trouble;
use moments::triad::Triad;
use std::alloc::Global;
use table::line::Line;
use table::lines::admit;

impl Cases {
    // No case.
    pub fn new(heap: Global) -> Cases
        ensures { result ≡ [] }
    {
        Cases {
            list: Vec::new(heap),
        }
    }

    // The cases, in rising order of their numbers.
    pub fn as_slice(&self) -> &[Line]
        ensures value { result.now ≡ self.now }
        ensures rising { climbing result.now ≡ true }
        ensures ranged { all_sound result.now ≡ true }
    {
        self.list.as_slice()
    }

    // Enters a case in its place by rising number, unless a refusal is due or there is no memory.
    pub fn enter(&mut self, number: u32, triad: Triad) -> Result<(), Trouble>
        ensures { Entering number triad self.old result self.new }
    {
        let at = admit(self.list.as_slice(), number, triad)?;
        self.list.insert(at, Line { number, triad })?;
        Ok(())
    }
}

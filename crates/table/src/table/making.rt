ghost use Rattle.std.specs.Prelude.{◌≡◌, ◌≤◌, true, [], length};
ghost use Rattle.moments.specs.Limits.{most_lines};
ghost use Rattle.table.specs.Lines.{climbing, all_sound};
ghost use Rattle.table.specs.Standing.{standing};

use crate::line::{BLANK, Line};
use crate::table::Table;
use moments::limits::MOST_LINES;

impl Table {
    // A table on which no case stands: one blank line, repeated.
    pub fn new() -> Table
        ensures { standing result ≡ [] }
    {
        Table {
            lines: [BLANK; MOST_LINES],
            count: 0,
        }
    }

    // The lines that stand, in strictly rising order of their numbers.
    pub fn standing(&self) -> &[Line]
        ensures value { result.now ≡ standing self.now }
        ensures rising { climbing result.now ≡ true }
        ensures ranged { all_sound result.now ≡ true }
        ensures few { length result.now ≤ most_lines }
    {
        &self.lines[0..self.count]
    }
}

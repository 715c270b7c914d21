ghost use Rattle.std.specs.Prelude.{◌≡◌, ◌≤◌, true, length, take};
ghost use Rattle.moments.specs.Limits.{most_lines};
ghost use Rattle.table.specs.Lines.{climbing, all_sound};

use crate::line::Line;
use moments::limits::MOST_LINES;

mod changing;
mod checking;
mod making;

// The load cases that stand: the first `count` places hold them, in strictly rising order of their numbers, and the others are free.
// An array that begins as one blank line repeated, and a count: laid down for the product, as a table then takes the same memory however many
// lines stand, asks the heap for none, and is copied as plain data. The facts are ghost fields and no model, since a refusal leaves the free
// places as they were too, and a clause says so.
#[derive(Clone, Copy)]
pub struct Table {
    lines: [Line; MOST_LINES],
    count: usize,
    ghost sized: { length lines ≡ most_lines },
    ghost few: { count ≤ most_lines },
    ghost rising: { climbing (take count lines) ≡ true },
    ghost ranged: { all_sound (take count lines) ≡ true },
}

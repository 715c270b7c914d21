use moments::pair::Pair;
use table::line::Line;

// What is asked of a face: a pair that is safe by a rule, for the lines that stand, and that keeps the floors.
#[derive(Drop)]
pub(crate) struct Question<'a, R> {
    pub rule: &'a R,
    pub lines: &'a [Line],
    pub floor: Pair,
}

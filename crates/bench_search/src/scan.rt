use moments::pair::Pair;
use moments::rule::DirectRule;
use table::line::Line;

// The best pair by a plain scan: in every column from the floor to the ceiling the least my that all lines pass.
pub fn scan<R: DirectRule>(rule: &R, lines: &[Line], floor: Pair) -> Option<Pair> {
    (floor.mx..=rule.ceiling())
        .filter_map(|mx| least_my(rule, lines, floor, mx).map(|my| Pair { mx, my }))
        .min_by_key(|pair| pair.sum())
}

// The least my of a column that all lines pass, at or above the floor.
fn least_my<R: DirectRule>(rule: &R, lines: &[Line], floor: Pair, mx: u32) -> Option<u32> {
    lines.iter().try_fold(
        floor.my,
        |my, line| Some(my.max(rule.least_my(line.triad, mx)?)),
    )
}

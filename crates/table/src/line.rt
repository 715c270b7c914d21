use moments::triad::Triad;

// One load case: its number and its moments.
#[derive(Clone, Copy, PartialEq, Eq, Debug)]
pub struct Line {
    pub number: u32,
    pub triad: Triad,
}

// What a free place of a table holds: a blank line, as laid down, and no `Option`.
pub(crate) const BLANK: Line = Line {
    number: 0,
    triad: Triad {
        mx: 0,
        my: 0,
        mxy: 0,
    },
};

use moments::pair::Pair;

// What keeps a moment of the best pair from being one unit less: its floor, or a load case.
#[derive(Clone, Copy, PartialEq, Eq, Debug)]
pub enum Stop {
    // no `Option` of a case: a floor is a stop of its own, and not the want of one
    Floor,
    Case(u32),
}

// The best pair of a face, with the stop of each moment.
#[derive(Clone, Copy, PartialEq, Eq, Debug)]
pub struct Carried {
    pub pair: Pair,
    pub mx_stop: Stop,
    pub my_stop: Stop,
}

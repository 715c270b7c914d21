use crate::trouble::Trouble;
use moments::pair::{Face, Pair};
use moments::refusal::Refusal;
use moments::triad::Triad;
use script::command::Rules;
use script::unreadable::Unreadable;

// What came of one line of a script.
#[derive(Clone, Copy, PartialEq, Eq, Debug)]
pub enum Reply {
    // the line holds no command
    Nothing,
    // it can't be read
    Unreadable(Unreadable),
    // the rules are chosen
    Ruled(Rules),
    // a load case was entered, or why not
    Entered {
        number: u32,
        triad: Triad,
        outcome: Result<(), Trouble>,
    },
    // a trial pair was checked: the case that fails first if one does, or a refusal
    Checked {
        face: Face,
        pair: Pair,
        outcome: Result<Option<u32>, Refusal>,
    },
}

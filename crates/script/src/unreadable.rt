// What cannot be read, and how that is said.
ghost use Rattle.std.specs.Prelude.{Some};
ghost use Rattle.script.specs.Faults.{wrong, fault};

use std::error::Error;
use std::fmt;

// What is wrong with a line.
#[derive(Clone, Copy, PartialEq, Eq, Debug)]
pub enum Why {
    // the first word names no command
    UnknownCommand,
    // the line ends where a word is wanted
    MissingWord,
    // a whole number from 0 to the largest number is wanted
    NotAWhole,
    // such a number is wanted, with or without a `-`
    NotASigned,
    // the name of a yield rule is wanted
    UnknownRule,
    // the name of a face is wanted
    UnknownFace,
    // a word follows the command's last
    TooManyWords,
}

impl fmt::Display for Why {
    ghost output = { λ y. Some (wrong y) };

    // Says what is wrong.
    fn fmt<W: fmt::Write>(&self, f: &mut fmt::Formatter<W>) -> fmt::Result {
        match self {
            Why::UnknownCommand => f.write_str("no command; write rules, enter or check"),
            Why::MissingWord => f.write_str("a word is missing"),
            Why::NotAWhole => f.write_str("no whole number, or too large"),
            Why::NotASigned => f.write_str("no signed whole number, or too large"),
            Why::UnknownRule => f.write_str("no rule; write yield or box"),
            Why::UnknownFace => f.write_str("no face; write bottom or top"),
            Why::TooManyWords => f.write_str("a word too many"),
        }
    }
}

// Where in a line, counted from 0, a word begins that cannot be read, or is wanted, and what is wrong.
#[derive(Clone, Copy, PartialEq, Eq, Debug)]
pub struct Unreadable {
    pub place: usize,
    pub why: Why,
}

impl fmt::Display for Unreadable {
    ghost output = { λ u. Some (fault u) };

    // Says in which column, counted from 1, and what is wrong.
    fn fmt<W: fmt::Write>(&self, f: &mut fmt::Formatter<W>) -> fmt::Result {
        let column = self.place.saturating_add(1);
        let why = self.why;
        write!(f, "can't be read at column {column}: {why}")
    }
}

impl Error for Unreadable {}

ghost use Rattle.std.specs.Prelude.{◌≡◌};

use crate::unreadable::Why;
use std::marker::Model;

// What is left of a line's text. A clause sees the bytes.
#[derive(Drop)]
pub struct Words<'a> {
    pub rest: &'a [u8],
}

impl<'a> Model for Words<'a> {
    ghost use Rattle.std.specs.Prelude.{ℕ, List};

    ghost Value = { List ℕ };

    ghost view = { λ w. w.rest.now };
}

// A word, and how many bytes of the text are left where it begins.
#[derive(Drop)]
pub struct Word<'a> {
    pub bytes: &'a [u8],
    pub left: usize,
}

impl<'a> Model for Word<'a> {
    ghost use Rattle.script.specs.Reading.{Found};

    ghost Value = { Found };

    ghost view = { λ w. record { bytes = w.bytes.now; left = w.left } };
}

// Where a word cannot be read, or is wanted, by the number of bytes of the text that are left there, and what is wrong. It is no `Unreadable`, since
// a reader that could count from the front would hold the length of the text beside what is left, which is no plainer.
#[derive(Clone, Copy, PartialEq, Eq, Debug)]
pub struct Stuck {
    pub left: usize,
    pub why: Why,
}

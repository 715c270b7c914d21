// A script, line by line.
ghost use Rattle.std.specs.Prelude.{◌≡◌, ◌<◌, length};
ghost use Rattle.std.specs.Iterator.{YieldsFirstRef, item_count};
ghost use Rattle.script.specs.Lines.{command_of, first_line, after_line, lines_of};

use crate::command::Command;
use crate::runs::cut;
use crate::unreadable::Unreadable;
use crate::words::Words;
use std::marker::Model;

// Reads a line: a command, nothing where no word stands before a comment, or what is wrong and where.
pub fn read_line(line: &[u8]) -> Result<Option<Command>, Unreadable>
    ensures { result ≡ command_of line.now }
{
    let (text, _) = cut(line, |b| *b == b'#');
    let mut words = Words { rest: text };
    words.line().map_err(|stuck| Unreadable {
        place: text.len().saturating_sub(stuck.left),
        why: stuck.why,
    })
}

// The first line of a script without its line feed, and what follows that; the whole script and nothing where it has none.
pub fn split_line(script: &[u8]) -> (&[u8], &[u8])
    ensures line { result.0.now ≡ first_line script.now }
    ensures rest { result.1.now ≡ after_line script.now }
    ensures shorter { 0 < length script.now → length result.1.now < length script.now }
{
    let (line, rest) = cut(script, |b| *b == b'\n');
    if rest.is_empty() {
        (line, rest)
    } else {
        (line, &rest[1..])
    }
}

// The lines of a script that are left. A clause sees their list.
#[derive(Drop)]
pub struct Lines<'a> {
    rest: &'a [u8],
}

impl<'a> Model for Lines<'a> {
    ghost use Rattle.std.specs.Prelude.{ℕ, List};

    ghost Value = { List (List ℕ) };

    ghost use Rattle.script.specs.Lines.{lines_of};

    ghost view = { λ l. lines_of l.rest.now };
}

// The lines of a script in their order, each without its line feed.
pub fn lines_of(script: &[u8]) -> Lines<'_>
    ensures { result ≡ lines_of script.now }
{
    Lines { rest: script }
}

impl<'a> Iterator for Lines<'a> {
    type Item = &'a [u8];

    ghost next_gives = { YieldsFirstRef (λ l. l) };

    ghost remaining = { item_count (λ l. l) };

    // The next line.
    fn next(&mut self) -> Option<&'a [u8]> {
        if self.rest.is_empty() {
            return None;
        }
        let (line, rest) = split_line(self.rest);
        self.rest = rest;
        Some(line)
    }
}

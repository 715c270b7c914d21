// Reading a line's text. A new command is a variant of `Command` and of `Name`, its word in keywords, and a method here that reads what follows the word.
ghost use Rattle.std.specs.Prelude.{◌≡◌, ℕ, List, Option};
ghost use Rattle.script.specs.Runs.{Computes, is_no_blank, from_first};
ghost use Rattle.script.specs.Reading.{leaving, stuck_at, word_at, end_at, meant, whole_at, signed_at, rule_at, face_at};
ghost use Rattle.script.specs.Commands.{rules_at, enter_at, check_at, body_at, command_at, line_at};

use crate::command::{Command, Rules};
use crate::keywords::{Name, face_of, name_of, rule_of};
use crate::numbers::{signed_of, whole_of};
use crate::runs::{cut, is_blank};
use crate::unreadable::Why;
use crate::words::{Stuck, Word, Words};
use explained::chosen::Chosen;
use moments::pair::{Face, Pair};
use moments::triad::Triad;

impl Word<'_> {
    // The word as one that cannot be read.
    fn stuck(&self, why: Why) -> Stuck
        ensures { result ≡ stuck_at self.now why }
    {
        Stuck {
            left: self.left,
            why,
        }
    }
}

impl<'a> Words<'a> {
    // Moves to the next word, or to the end of the text.
    fn skip_blanks(&mut self)
        ensures { self.new ≡ from_first is_no_blank self.old }
    {
        let (_, rest) = cut(self.rest, |b| !is_blank(*b));
        self.rest = rest;
    }

    // Reads a word.
    fn word(&mut self) -> Result<Word<'a>, Stuck>
        ensures { leaving result self.new ≡ word_at self.old }
    {
        self.skip_blanks();
        let text = self.rest;
        if text.is_empty() {
            return Err(Stuck {
                left: 0,
                why: Why::MissingWord,
            });
        }
        let (bytes, rest) = cut(text, |b| is_blank(*b));
        self.rest = rest;
        Ok(Word {
            bytes,
            left: text.len(),
        })
    }

    // Sees that no word is left.
    fn end(&mut self) -> Result<(), Stuck>
        ensures { leaving result self.new ≡ end_at self.old }
    {
        self.skip_blanks();
        if self.rest.is_empty() {
            Ok(())
        } else {
            Err(Stuck {
                left: self.rest.len(),
                why: Why::TooManyWords,
            })
        }
    }

    // Reads a word that stands for something.
    fn meant<T, F: Fn(&[u8]) -> Option<T>>(&mut self, meaning: F, why: Why) -> Result<T, Stuck>
        requires { F.IsAlwaysCallable meaning }
        ensures { (f : List ℕ → Option T) → Computes F.Fn f meaning → leaving result self.new ≡ meant f why self.old }
    {
        let word = self.word()?;
        meaning(word.bytes).ok_or(word.stuck(why))
    }

    // Reads a whole number.
    fn whole(&mut self) -> Result<u32, Stuck>
        ensures { leaving result self.new ≡ whole_at self.old }
    {
        self.meant(whole_of, Why::NotAWhole)
    }

    // Reads a signed number.
    fn signed(&mut self) -> Result<i32, Stuck>
        ensures { leaving result self.new ≡ signed_at self.old }
    {
        self.meant(signed_of, Why::NotASigned)
    }

    // Reads the name of a yield rule.
    fn rule(&mut self) -> Result<Chosen, Stuck>
        ensures { leaving result self.new ≡ rule_at self.old }
    {
        self.meant(rule_of, Why::UnknownRule)
    }

    // Reads the name of a face.
    fn face(&mut self) -> Result<Face, Stuck>
        ensures { leaving result self.new ≡ face_at self.old }
    {
        self.meant(face_of, Why::UnknownFace)
    }

    // Reads what follows `rules`.
    fn rules(&mut self) -> Result<Command, Stuck>
        ensures { leaving result self.new ≡ rules_at self.old }
    {
        let bottom = self.rule()?;
        let top = self.rule()?;
        Ok(Command::Rules(Rules { bottom, top }))
    }

    // Reads what follows `enter`.
    fn enter(&mut self) -> Result<Command, Stuck>
        ensures { leaving result self.new ≡ enter_at self.old }
    {
        let number = self.whole()?;
        let mx = self.signed()?;
        let my = self.signed()?;
        let mxy = self.signed()?;
        Ok(Command::Enter {
            number,
            triad: Triad { mx, my, mxy },
        })
    }

    // Reads what follows `check`.
    fn check(&mut self) -> Result<Command, Stuck>
        ensures { leaving result self.new ≡ check_at self.old }
    {
        let face = self.face()?;
        let mx = self.whole()?;
        let my = self.whole()?;
        Ok(Command::Check {
            face,
            pair: Pair { mx, my },
        })
    }

    // Reads what follows a command's name. The name stands for what is read next, since no function may hand another one out.
    fn body(&mut self, name: Name) -> Result<Command, Stuck>
        ensures { leaving result self.new ≡ body_at name self.old }
    {
        match name {
            Name::Rules => self.rules(),
            Name::Enter => self.enter(),
            Name::Check => self.check(),
        }
    }

    // Reads a command, after which no word may be left.
    fn command(&mut self) -> Result<Command, Stuck>
        ensures { leaving result self.new ≡ command_at self.old }
    {
        let name = self.meant(name_of, Why::UnknownCommand)?;
        let command = self.body(name)?;
        self.end()?;
        Ok(command)
    }

    // Reads the text of a line: a command, or no word.
    pub fn line(&mut self) -> Result<Option<Command>, Stuck>
        ensures { leaving result self.new ≡ line_at self.old }
    {
        self.skip_blanks();
        if self.rest.is_empty() {
            return Ok(None);
        }
        self.command().map(Some)
    }
}

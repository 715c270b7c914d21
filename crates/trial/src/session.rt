ghost use Rattle.std.specs.Prelude.{◌≡◌, true};
ghost use Rattle.table.specs.Lines.{climbing, all_sound};
ghost use Rattle.script.specs.Commands.{rule_for};
ghost use Rattle.script.specs.Lines.{command_of};
ghost use Rattle.trial.specs.Checking.{checked, LowestNamed};
ghost use Rattle.trial.specs.Sessions.{start, face_meaning, face_sides, EnteredInto, Done, Obeyed};
ghost use Rattle.trial.specs.Trials.{Tried};

use crate::cases::Cases;
use crate::reply::Reply;
use crate::tried::{Trial, try_pair};
use crate::trouble::Trouble;
use explained::chosen::Chosen;
use moments::pair::{Face, Pair};
use moments::refusal::Refusal;
use moments::triad::Triad;
use moments::turned::Turned;
use script::command::{Command, Rules};
use script::lines::read_line;
use std::alloc::Global;
use std::marker::Model;
use table::line::Line;

// What a script works on: a rule for each face, and the load cases. The top face takes its rule turned over.
#[derive(Drop)]
pub struct Session {
    rules: Rules,
    cases: Cases,
}

impl Model for Session {
    ghost use Rattle.trial.specs.Sessions.{Held};

    ghost Value = { Held };

    ghost view = { λ s. record { rules = s.rules; cases = s.cases } };
}

impl Session {
    // The yield rule on both faces, and no case.
    pub fn new(heap: Global) -> Session
        ensures { result ≡ start }
    {
        Session {
            rules: Rules {
                bottom: Chosen::Yield,
                top: Chosen::Yield,
            },
            cases: Cases::new(heap),
        }
    }

    // The rule chosen for a face.
    pub fn rule(&self, face: Face) -> Chosen
        ensures { result ≡ rule_for self.now.rules face }
    {
        self.rules.of(face)
    }

    // The cases, in rising order of their numbers.
    pub fn cases(&self) -> &[Line]
        ensures value { result.now ≡ self.now.cases }
        ensures rising { climbing result.now ≡ true }
        ensures ranged { all_sound result.now ≡ true }
    {
        self.cases.as_slice()
    }

    // Enters a load case; the rules stay.
    fn enter(&mut self, number: u32, triad: Triad) -> Result<(), Trouble>
        ensures { EnteredInto self.old number triad result self.new }
    {
        self.cases.enter(number, triad)
    }

    // The first case that fails the trial pair on a face, or none; refused where a trial moment is above the ceiling.
    fn check(&self, face: Face, pair: Pair) -> Result<Option<u32>, Refusal>
        ensures value { result ≡ checked (face_meaning self.now face) pair self.now.cases }
        ensures lowest { LowestNamed (face_meaning self.now face) pair self.now.cases result }
    {
        let rule = self.rules.of(face);
        // each face has a rule of a type of its own: one type for both would need a block of each of the three traits of rules
        match face {
            Face::Bottom => self.cases.check(&rule, pair),
            Face::Top => self.cases.check(&Turned { rule }, pair),
        }
    }

    // What one load case says to a trial pair on a face.
    pub fn try_case(&self, face: Face, triad: Triad, pair: Pair) -> Option<Trial>
        ensures { Tried (face_meaning self.now face) (face_sides self.now face) triad pair result }
    {
        let rule = self.rules.of(face);
        // each face has a rule of a type of its own, as in `check`
        match face {
            Face::Bottom => try_pair(&rule, triad, pair),
            Face::Top => try_pair(&Turned { rule }, triad, pair),
        }
    }

    // Does what a command asks for.
    fn carry_out(&mut self, command: Command) -> Reply
        ensures { Done self.old command result self.new }
    {
        match command {
            Command::Rules(rules) => {
                self.rules = rules;
                Reply::Ruled(rules)
            }
            Command::Enter { number, triad } => {
                let outcome = self.enter(number, triad);
                Reply::Entered {
                    number,
                    triad,
                    outcome,
                }
            }
            Command::Check { face, pair } => {
                let outcome = self.check(face, pair);
                Reply::Checked {
                    face,
                    pair,
                    outcome,
                }
            }
        }
    }

    // Does what one line of a script asks for; a line that can't be read, and a refused one, changes nothing.
    pub fn obey(&mut self, line: &[u8]) -> Reply
        ensures { Obeyed self.old (command_of line.now) result self.new }
    {
        match read_line(line) {
            Ok(Some(command)) => self.carry_out(command),
            Ok(None) => Reply::Nothing,
            Err(unreadable) => Reply::Unreadable(unreadable),
        }
    }
}

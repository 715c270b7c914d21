ghost use Rattle.std.proofs.Common.{rules};

use moments::pair::{Direction, Pair};
use moments::rule::{DirectRule, YieldRule};
use moments::triad::Triad;
use std::cell::Cell;

// What is told of each question for a least partner.
pub trait Listener {
    // The least moment in a direction is asked for.
    fn asked(&self, direction: Direction);
}

// A rule that tells a listener of each question for a least partner, and answers as the rule that it is made of.
#[derive(Drop)]
pub struct Heard<R, L> {
    pub rule: R,
    pub listener: L,
}

impl<R: YieldRule, L: Listener> YieldRule for Heard<R, L> {
    ghost meaning = { λ r. R.YieldRule.meaning r.rule };

    ghost lawful = { Prim.search rules };

    fn ceiling(&self) -> u32 {
        self.rule.ceiling()
    }

    fn passes(&self, triad: Triad, pair: Pair) -> bool {
        self.rule.passes(triad, pair)
    }
}

impl<R: DirectRule, L: Listener> DirectRule for Heard<R, L> {
    fn least_partner(&self, triad: Triad, direction: Direction, partner: u32) -> Option<u32> {
        self.listener.asked(direction);
        self.rule.least_partner(triad, direction, partner)
    }
}

// How often a least my was asked for, in a column, and a least mx, in a row.
#[derive(Clone, Copy, Default)]
pub struct Questions {
    pub columns: u64,
    pub rows: u64,
}

impl Questions {
    // Questions of both kinds.
    pub fn all(self) -> u64 {
        self.columns.saturating_add(self.rows)
    }

    // These questions and others together.
    pub fn plus(self, others: Questions) -> Questions {
        Questions {
            columns: self.columns.saturating_add(others.columns),
            rows: self.rows.saturating_add(others.rows),
        }
    }
}

// A cell counts the questions that it is told of.
impl Listener for Cell<Questions> {
    fn asked(&self, direction: Direction) {
        let mut questions = self.get();
        let count = match direction {
            Direction::X => &mut questions.rows,
            Direction::Y => &mut questions.columns,
        };
        *count = count.saturating_add(1);
        self.set(questions);
    }
}

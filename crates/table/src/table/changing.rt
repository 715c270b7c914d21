ghost use Rattle.std.specs.Prelude.{◌≡◌, ◌<◌, false, is_ok, IfOk, None, OnOk};
ghost use Rattle.std.specs.List.{remove};
ghost use Rattle.moments.specs.Refusals.{refused_by};
ghost use Rattle.table.specs.Lines.{entered};
ghost use Rattle.table.specs.Places.{FitsAt};
ghost use Rattle.table.specs.Changes.{enter_due, after_enter, withdraw_due, after_withdraw};
ghost use Rattle.table.specs.Laws.{Stands, OneMore, OneLess};
ghost use Rattle.table.specs.Standing.{standing};

use crate::line::Line;
use crate::lines::{self, is_case_number, place};
use crate::table::Table;
use moments::limits::MOST_LINES;
use moments::refusal::Refusal;
use moments::triad::Triad;

impl Table {
    // Adds a line in its place by rising number, under a number that does not stand yet; a refusal changes nothing.
    pub fn enter(&mut self, number: u32, triad: Triad) -> Result<(), Refusal>
        ensures refusal { refused_by result ≡ enter_due number triad (standing self.old) }
        ensures lines { standing self.new ≡ after_enter number triad (standing self.old) }
        ensures law { OnOk result (OneMore number triad (standing self.old) (standing self.new)) }
        ensures unchanged { is_ok result ≡ false → self.new ≡ self.old }
    {
        let at = self.admit(number, triad)?;
        self.insert(at, Line { number, triad });
        Ok(())
    }

    // Removes the line of that number, and answers its moments; a refusal changes nothing.
    pub fn withdraw(&mut self, number: u32) -> Result<Triad, Refusal>
        ensures refusal { refused_by result ≡ withdraw_due number (standing self.old) }
        ensures answer { IfOk result (λ t. Stands (standing self.old) number t) }
        ensures lines { standing self.new ≡ after_withdraw number (standing self.old) }
        ensures law { OnOk result (OneLess number (standing self.old) (standing self.new)) }
        ensures unchanged { is_ok result ≡ false → self.new ≡ self.old }
    {
        if !is_case_number(number) {
            return Err(Refusal::CaseNumber);
        }
        let Ok(at) = place(self.standing(), number) else {
            return Err(Refusal::NotStanding);
        };
        let triad = self.lines[at].triad;
        self.remove(at);
        Ok(triad)
    }

    // Where a line that may be entered would stand, or which refusal is due.
    fn admit(&self, number: u32, triad: Triad) -> Result<usize, Refusal>
        ensures refusal { refused_by result ≡ enter_due number triad (standing self.now) }
        ensures place { IfOk result (FitsAt number (standing self.now)) }
    {
        let at = lines::admit(self.standing(), number, triad)?;
        if self.count >= MOST_LINES {
            return Err(Refusal::Full);
        }
        Ok(at)
    }

    // Puts a line that may be entered at its place, past the lines of lower numbers.
    fn insert(&mut self, at: usize, line: Line)
        requires free { enter_due line.number line.triad (standing self.old) ≡ None }
        requires fits { FitsAt line.number (standing self.old) at }
        ensures { standing self.new ≡ entered line (standing self.old) }
    {
        let count = self.count;
        self.lines.copy_within(at..count, at + 1);
        self.lines[at] = line;
        self.count = count + 1;
    }

    // Takes the line at that place out.
    fn remove(&mut self, at: usize)
        requires { at < self.old.count }
        ensures { standing self.new ≡ remove (standing self.old) at }
    {
        let count = self.count;
        self.lines.copy_within(at + 1..count, at);
        self.count = count - 1;
    }
}

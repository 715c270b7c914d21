// Random load cases, held twice: on a table, and in plain slots in the order of entering.
use moments::limits::LAST_CASE;
use samples::Random;
use table::line::Line;
use table::table::Table;

// How many cases are entered at most.
pub const SLOTS: usize = 8;

// The same cases stand on the table and in the slots. A slot for each case that was tried, and no list of those that stand: the slots keep
// the order of entering with nothing moved, and no case is left out for want of memory.
#[derive(Clone, Copy)]
pub struct Cases {
    pub table: Table,
    pub slots: [Option<Line>; SLOTS],
}

// Some cases entered, and some of them withdrawn again.
pub fn random_cases(random: &mut Random, most: u32) -> Cases {
    let mut table = Table::new();
    let mut slots = [None; SLOTS];
    for slot in slots.iter_mut() {
        let number = random.up_to(LAST_CASE - 1) + 1;
        let triad = random.triad(most);
        if random.up_to(3) > 0 && table.enter(number, triad).is_ok() {
            *slot = Some(Line { number, triad });
        }
    }
    for slot in slots.iter_mut() {
        slot.take_if(|line| random.up_to(4) == 0 && table.withdraw(line.number).is_ok());
    }
    Cases { table, slots }
}

// bench_search: how often the search for the best pair asks the load cases, and with the word `time`, how much faster it is than
// a plain scan of all columns in the same run.
#![tactic(auto)]

mod counted;
mod scan;

use counted::{Heard, Questions};
use moments::limits::{LAST_CASE, MOST_LINES};
use moments::pair::NO_FLOORS;
use rules::yield_rule::Yield;
use samples::Random;
use scan::scan;
use search::best::best_pair;
use std::cell::Cell;
use std::time::{Duration, Instant};
use std::{env, io};
use table::table::Table;

// How many tables are tried for each size of moments.
const TABLES: u32 = 20;

// Counts the questions for four sizes of moments, and times the search where that is asked for.
fn main(rt: HostRuntime) -> io::Result<()> {
    let timed = wants_time(rt)?;
    println!(rt;
        "{TABLES} tables of {MOST_LINES} load cases for each size, yield rule, no floors"
    )?;
    for most in [100_000, 10_000, 1_000, 100] {
        measure(rt, most)?;
        if timed {
            compare(rt, most)?;
        }
    }
    Ok(())
}

// Whether the first word after the program's name is `time`.
fn wants_time(rt: HostRuntime) -> io::Result<bool> {
    let word = env::args(&rt)?.nth(1);
    Ok(word.is_some_and(|word| word.as_str() == "time"))
}

// How often all load cases of a table are asked for a column or a row.
fn measure(rt: HostRuntime, most: u32) -> io::Result<()> {
    let mut random = Random::new(most as u64);
    let mut total = Questions::default();
    let mut worst = 0u64;
    for _ in 0..TABLES {
        let asked = questions(&full_table(&mut random, most));
        total = total.plus(asked);
        worst = worst.max(asked.all());
    }
    let columns = mean(total.columns);
    let rows = mean(total.rows);
    let asked = columns.saturating_add(rows);
    let worst = worst / MOST_LINES as u64;
    println!(rt;
        "moments up to {most}: the cases are asked {asked} times on average ({columns} columns, {rows} rows), {worst} at most"
    )
}

// The questions to single cases in the search on one table.
fn questions(table: &Table) -> Questions {
    let rule = Heard {
        rule: Yield,
        listener: Cell::new(Questions::default()),
    };
    let _ = best_pair(&rule, table.standing(), NO_FLOORS);
    rule.listener.get()
}

// Questions to single cases, as a mean over the tables of questions to all cases.
fn mean(questions: u64) -> u64 {
    questions / (TABLES as u64 * MOST_LINES as u64)
}

// The search against the plain scan on the same tables.
fn compare(rt: HostRuntime, most: u32) -> io::Result<()> {
    let mut random = Random::new(most as u64);
    let (mut fast, mut slow) = (Duration::default(), Duration::default());
    let mut same = 0u32;
    for _ in 0..TABLES {
        let table = full_table(&mut random, most);
        let (found, took) = clocked(rt, || best_pair(&Yield, table.standing(), NO_FLOORS))?;
        fast = fast.saturating_add(took);
        let (scanned, took) = clocked(rt, || scan(&Yield, table.standing(), NO_FLOORS))?;
        slow = slow.saturating_add(took);
        if found == scanned {
            same = same.saturating_add(1);
        }
    }
    let (fast, slow) = (fast.as_micros(), slow.as_micros());
    let ratio = slow / fast.max(1);
    println!(rt;
        "  {ratio} times faster than the plain scan ({fast} against {slow} microseconds), {same} answers the same"
    )
}

// What a step answers, and how long it takes.
fn clocked<T: Drop, F: FnOnce() -> T>(rt: HostRuntime, step: F) -> io::Result<(T, Duration)>
    requires { F.IsAlwaysCallable step }
{
    let start = Instant::now(&rt)?;
    let answer = step();
    Ok((answer, start.elapsed(&rt)?))
}

// A table on which as many load cases stand as can.
fn full_table(random: &mut Random, most: u32) -> Table {
    let mut table = Table::new();
    for number in 1..=LAST_CASE {
        if table.enter(number, random.triad(most)).is_err() {
            break;
        }
    }
    table
}

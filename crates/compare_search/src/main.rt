// compare_search: the search for the best pair and its stops against a plain one, on thousands of small random tables.
#![tactic(auto)]

mod cases;
mod plain;

use cases::random_cases;
use moments::pair::{Direction, Pair};
use moments::rule::DirectRule;
use moments::triad::Triad;
use moments::turned::Turned;
use plain::{Question, meets_box, meets_yield, seen_from_top};
use rules::box_rule::BoxRule;
use rules::yield_rule::Yield;
use samples::Random;
use search::ranking::LeastMx;
use search::stops::best_with_stops;
use std::io;
use table::table::Table;

// How many tables each rule is tried on.
const TABLES: u32 = 2_000;

// The largest moment of a case and the largest floor.
const MOST: u32 = 12;

// Tries the delivered rules on both faces.
fn main(rt: HostRuntime) -> io::Result<()> {
    println!(rt;
        "The search against a plain one: pairs in rising order of sum, then mx, until one is safe"
    )?;
    show(rt, "yield", &Yield, meets_yield)?;
    let on_top = |triad, pair| meets_yield(seen_from_top(triad), pair);
    show(rt, "yield turned over", &Turned { rule: Yield }, on_top)?;
    show(rt, "box", &BoxRule, meets_box)?;
    let on_top = |triad, pair| meets_box(seen_from_top(triad), pair);
    show(rt, "box turned over", &Turned { rule: BoxRule }, on_top)
}

// Tries one rule against its criterion, and prints on how many tables the two agree.
fn show<R: DirectRule, F: Fn(Triad, Pair) -> bool>(
    rt: HostRuntime,
    name: &str,
    rule: &R,
    passes: F,
) -> io::Result<()>
    requires { F.IsAlwaysCallable passes }
{
    let mut random = Random::new(2_026);
    let mut agreed = 0u32;
    let mut lines = 0u32;
    for _ in 0..TABLES {
        let cases = random_cases(&mut random, MOST);
        let question = Question {
            passes: &passes,
            slots: cases.slots.as_slice(),
            floor: random_floor(&mut random),
        };
        lines = lines.saturating_add(cases.table.standing().len() as u32);
        if agrees(rule, &cases.table, &question) {
            agreed = agreed.saturating_add(1);
        }
    }
    println!(rt; "{name}: {TABLES} tables with {lines} standing cases in all, {agreed} agreed")
}

// No floors on half of the tables.
fn random_floor(random: &mut Random) -> Pair {
    let most = if random.up_to(1) == 0 { 0 } else { MOST };
    Pair {
        mx: random.up_to(most),
        my: random.up_to(most),
    }
}

// Whether the search answers the pair and the stops that the plain search finds.
fn agrees<R: DirectRule, F: Fn(Triad, Pair) -> bool>(
    rule: &R,
    table: &Table,
    question: &Question<F>,
) -> bool
    requires { F.IsAlwaysCallable question.now.passes }
{
    let Ok(found) = best_with_stops(rule, &LeastMx, table, question.floor) else {
        return false;
    };
    question.best() == Some(found.pair)
        && question.stop(found.pair, Direction::X) == Some(found.mx_stop)
        && question.stop(found.pair, Direction::Y) == Some(found.my_stop)
}

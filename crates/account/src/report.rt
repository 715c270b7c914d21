// The account, as it is printed.
use explained::chosen::Chosen;
use moments::pair::{Direction, Face, Pair};
use moments::refusal::Refusal;
use moments::rule::YieldRule;
use moments::turned::Turned;
use script::command::Rules;
use std::io;
use table::line::Line;
use trial::reply::Reply;
use trial::session::Session;
use trial::tried::Trial;

// What came of one line of the script.
pub fn show(rt: HostRuntime, line: u64, session: &Session, reply: Reply) -> io::Result<()> {
    match reply {
        Reply::Nothing => Ok(()),
        Reply::Unreadable(unreadable) => println!(rt; "line {line}: {unreadable}"),
        Reply::Ruled(Rules { bottom, top }) => {
            let above = Turned { rule: top };
            println!(rt; "line {line}: bottom face by {bottom}, top face by {above}")
        }
        Reply::Entered {
            number,
            triad,
            outcome,
        } => match outcome {
            Ok(()) => println!(rt; "line {line}: case {number} {triad} entered"),
            Err(trouble) => println!(rt; "line {line}: case {number} {triad} {trouble}"),
        },
        Reply::Checked {
            face,
            pair,
            outcome,
        } => {
            show_question(rt, line, session.rule(face), face, pair)?;
            show_checked(rt, session, face, pair, outcome)
        }
    }
}

// What came of a trial pair on a face: what each case says to it, and which case fails first.
fn show_checked(
    rt: HostRuntime,
    session: &Session,
    face: Face,
    pair: Pair,
    outcome: Result<Option<u32>, Refusal>,
) -> io::Result<()> {
    match outcome {
        Ok(failing) => {
            println!(rt; "")?;
            for case in session.cases() {
                if let Some(trial) = session.try_case(face, case.triad, pair) {
                    show_trial(rt, *case, pair, trial)?;
                }
            }
            show_verdict(rt, failing)
        }
        Err(refusal) => println!(rt; " {refusal}"),
    }
}

// The question, in one write with the line's number; the top face takes its rule turned over.
fn show_question(
    rt: HostRuntime,
    line: u64,
    rule: Chosen,
    face: Face,
    pair: Pair,
) -> io::Result<()> {
    let ceiling = rule.ceiling();
    // each face has a rule of a type of its own, as in the session
    match face {
        Face::Bottom => {
            print!(rt; "line {line}: check {face} {pair} by {rule} (ceiling {ceiling})")
        }
        Face::Top => {
            let above = Turned { rule };
            print!(rt; "line {line}: check {face} {pair} by {above} (ceiling {ceiling})")
        }
    }
}

// Which case fails first, if any does.
fn show_verdict(rt: HostRuntime, failing: Option<u32>) -> io::Result<()> {
    match failing {
        Some(number) => println!(rt; "  fails: case {number} is the first that fails"),
        None => println!(rt; "  passes: every case passes"),
    }
}

// What one load case says.
fn show_trial(rt: HostRuntime, case: Line, pair: Pair, trial: Trial) -> io::Result<()> {
    let Line { number, triad } = case;
    let verdict = if trial.passed { "passes" } else { "fails" };
    println!(rt; "  case {number} {verdict} {triad}\n    {}", trial.sides)?;
    show_partner(rt, Direction::Y, pair.mx, trial.least_my)?;
    show_partner(rt, Direction::X, pair.my, trial.least_mx)
}

// The least moment in a direction with the moment that is kept across it.
fn show_partner(
    rt: HostRuntime,
    sought: Direction,
    kept: u32,
    least: Option<u32>,
) -> io::Result<()> {
    let across = sought.across();
    match least {
        Some(partner) => println!(rt; "    least {sought} with {across} {kept}: {partner}"),
        None => println!(rt; "    least {sought} with {across} {kept}: none up to the ceiling"),
    }
}

// account: reads a script of load cases and trial pairs on standard input, and prints an account of each check.
#![tactic(auto)]

mod report;

use moments::limits::{LAST_CASE, MOMENT_LIMIT};
use report::show;
use script::lines::lines_of;
use std::io::Read;
use trial::reply::Reply;
use trial::session::Session;

// Reads the whole script, obeys its lines in their order, and prints what came of each.
fn main(rt: HostRuntime) -> anyhow::Result<()> {
    let mut script = Vec::new(rt.alloc());
    rt.stdin().read_to_end(&mut script)?;
    let mut session = Session::new(rt.alloc());
    println!(rt;
        "Account of trial pairs, in whole units of 0.01 kNm per m\n(moments of a load case from -{MOMENT_LIMIT} to {MOMENT_LIMIT}, case numbers from 1 to {LAST_CASE})"
    )?;
    for (number, line) in (1u64..).zip(lines_of(script.as_slice())) {
        let reply = session.obey(line);
        // a long script may be blank lines and comments for the most part: nothing is shown of them, and `show` is not called
        if reply != Reply::Nothing {
            show(rt, number, &session, reply)?;
        }
    }
    Ok(())
}

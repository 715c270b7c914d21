// Load cases on a table.
use moments::limits::MOST_LINES;
use moments::refusal::Refusal;
use moments::triad::Triad;
use std::test::Fail;
use table::table::Table;

// A triad of one moment.
fn triad(mx: i32) -> Triad {
    Triad { mx, my: 0, mxy: 0 }
}

#[test]
fn lines_stand_in_order(rt: HostRuntime) -> Result<(), Fail> {
    let mut table = Table::new();
    table.enter(7, triad(70))?;
    table.enter(3, triad(30))?;
    assert_eq!(rt; table.enter(7, triad(71)), Err(Refusal::Standing));
    let lines = table.standing();
    assert!(rt; lines.len() == 2);
    assert_eq!(rt; (lines[0].number, lines[0].triad), (3, triad(30)));
    assert_eq!(rt; (lines[1].number, lines[1].triad), (7, triad(70)));
    Ok(())
}

#[test]
fn a_full_table_takes_one_more_after_a_withdrawal(rt: HostRuntime) -> Result<(), Fail> {
    let mut table = Table::new();
    for number in 1..=MOST_LINES as u32 {
        table.enter(number, triad(1))?;
    }
    assert_eq!(rt; table.enter(97, triad(97)), Err(Refusal::Full));
    assert_eq!(rt; Refusal::Full.number(), 15);
    assert_eq!(rt; table.withdraw(50), Ok(triad(1)));
    assert_eq!(rt; table.withdraw(50), Err(Refusal::NotStanding));
    assert_eq!(rt; table.enter(97, triad(97)), Ok(()));
    Ok(())
}

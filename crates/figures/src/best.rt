// Best pairs and what stops their moments.
use moments::limits::MOMENT_LIMIT;
use moments::pair::{NO_FLOORS, Pair};
use moments::refusal::Refusal;
use moments::rule::{DirectRule, YieldRule};
use moments::triad::Triad;
use moments::turned::Turned;
use rules::box_rule::BoxRule;
use rules::yield_rule::Yield;
use search::best::best_pair;
use search::ranking::LeastMx;
use search::stop::Stop;
use search::stops::best_with_stops;
use std::test::Fail;
use table::table::Table;

// A table with these load cases under the numbers from 1 on.
fn entered(cases: &[(i32, i32, i32)]) -> Result<Table, Refusal> {
    let mut table = Table::new();
    for (number, (mx, my, mxy)) in (1u32..).zip(cases.iter().copied()) {
        table.enter(number, Triad { mx, my, mxy })?;
    }
    Ok(table)
}

// The best pair without floors.
fn best<R: DirectRule>(rule: &R, table: &Table) -> Option<Pair> {
    best_pair(rule, table.standing(), NO_FLOORS)
}

#[test]
fn one_case(rt: HostRuntime) -> Result<(), Fail> {
    let table = entered(&[(13, -8, 5)])?;
    assert_eq!(rt; best(&Yield, &table), Some(Pair { mx: 16, my: 1 }));
    let top = Turned { rule: Yield };
    assert_eq!(rt; best(&top, &table), Some(Pair { mx: 0, my: 10 }));
    let most = MOMENT_LIMIT;
    let ceiling = Yield.ceiling();
    assert_eq!(rt;
        best(&Yield, &entered(&[(most, most, most)])?),
        Some(Pair {
            mx: ceiling,
            my: ceiling,
        })
    );
    Ok(())
}

// (8, 8) has the same sum as (7, 9), and is safe too.
#[test]
fn of_equal_sums_the_smaller_mx(rt: HostRuntime) -> Result<(), Fail> {
    let table = entered(&[(4, 5, 3), (5, 4, 3)])?;
    assert_eq!(rt; best(&Yield, &table), Some(Pair { mx: 7, my: 9 }));
    assert_eq!(rt; table.first_failing(&Yield, Pair { mx: 8, my: 8 }), None);
    Ok(())
}

#[test]
fn floors_and_stops(rt: HostRuntime) -> Result<(), Fail> {
    let table = entered(&[(40, 50, 30), (50, 40, 30)])?;
    assert_eq!(rt; best(&Yield, &table), Some(Pair { mx: 75, my: 76 }));
    assert_eq!(rt; best(&BoxRule, &table), Some(Pair { mx: 80, my: 80 }));
    let carried = best_with_stops(&Yield, &LeastMx, &table, Pair { mx: 78, my: 0 })?;
    assert_eq!(rt; carried.pair, Pair { mx: 78, my: 74 });
    assert_eq!(rt; carried.mx_stop, Stop::Floor);
    assert_eq!(rt; carried.my_stop, Stop::Case(1));
    Ok(())
}

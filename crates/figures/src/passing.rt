// Which pairs the delivered rules pass.
use explained::sides::{Explained, Side};
use moments::limits::MOMENT_LIMIT;
use moments::pair::Pair;
use moments::rule::{DirectRule, YieldRule};
use moments::triad::Triad;
use rules::box_rule::BoxRule;
use rules::yield_rule::Yield;

// Mx, My, Mxy, mx, my, and whether the yield rule passes.
const FIGURES: [(i32, i32, i32, u32, u32, bool); 5] = [
    (13, -8, 5, 17, 0, true),
    (13, -8, 5, 16, 0, false),
    (10, 10, 3, 5, 5, false),
    (10, 4, 0, 10, 4, true),
    (10, 4, 1, 10, 200_000, false),
];

#[test]
fn yield_figures(rt: HostRuntime) {
    for (mx, my, mxy, x, y, passed) in FIGURES {
        assert_eq!(rt;
            Yield.passes(Triad { mx, my, mxy }, Pair { mx: x, my: y }),
            passed
        );
    }
}

// (17, 0) has 32 against 25, and (16, 0) has 24.
#[test]
fn both_sides(rt: HostRuntime) {
    let triad = Triad {
        mx: 13,
        my: -8,
        mxy: 5,
    };
    let product = |mx| {
        Yield
            .sides(triad, Pair { mx, my: 0 })
            .and_then(|sides| sides.product)
    };
    let (given, needed) = (32, 25);
    assert_eq!(rt; product(17), Some(Side { given, needed }));
    let (given, needed) = (24, 25);
    assert_eq!(rt; product(16), Some(Side { given, needed }));
}

#[test]
fn out_of_limits_passes_nothing(rt: HostRuntime) {
    let triad = Triad {
        mx: MOMENT_LIMIT + 1,
        my: 0,
        mxy: 0,
    };
    let ceiling = Yield.ceiling();
    let highest = Pair {
        mx: ceiling,
        my: ceiling,
    };
    assert!(rt; !Yield.passes(triad, highest));
    assert!(rt; !BoxRule.passes(triad, highest));
    assert_eq!(rt; Yield.least_my(triad, ceiling), None);
}

// A rule that the program knows only behind a trait object.
fn partners(rule: &dyn DirectRule, triad: Triad, pair: Pair) -> (Option<u32>, Option<u32>) {
    (rule.least_my(triad, pair.mx), rule.least_mx(triad, pair.my))
}

// (17, 0) is passed, and (16, 0) is not; no my goes with the mx that the box can't reach.
#[test]
fn a_rule_behind_an_object(rt: HostRuntime) {
    let triad = Triad {
        mx: 13,
        my: -8,
        mxy: 5,
    };
    let pair = Pair { mx: 17, my: 0 };
    assert_eq!(rt; partners(&Yield, triad, pair), (Some(0), Some(17)));
    assert_eq!(rt; partners(&BoxRule, triad, pair), (None, Some(18)));
}

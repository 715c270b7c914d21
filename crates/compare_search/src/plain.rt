// The best pair and its stops, worked out from the criteria as they are written down, with nothing of the product's search or rules.
use moments::pair::{Direction, Pair};
use moments::triad::Triad;
use search::stop::Stop;
use table::line::Line;

// Pairs up to this sum are tried: with moments and floors as small as here one of them is safe.
const LARGEST_SUM: u32 = 60;

// The test of a case that a face asks for, the cases in any order, and the floors.
#[derive(Drop)]
pub struct Question<'a, F> {
    pub passes: F,
    pub slots: &'a [Option<Line>],
    pub floor: Pair,
}

// Each method asks that the test may be called: a ghost field can't cite the bound `Fn`.
impl<'a, F: Fn(Triad, Pair) -> bool> Question<'a, F> {
    // The first safe pair in rising order of sum, then mx.
    pub fn best(&self) -> Option<Pair>
        requires { F.IsAlwaysCallable self.now.passes }
    {
        (0..=LARGEST_SUM)
            .flat_map(|sum| (0..=sum).map(move |mx| Pair { mx, my: sum - mx }))
            .find(|pair| self.safe(*pair))
    }

    // What stops the moment of a pair in a direction, if anything does. The pair with that moment one unit less is made by its fields, and not as
    // the search makes it, so that a slip there shows here.
    pub fn stop(&self, pair: Pair, direction: Direction) -> Option<Stop>
        requires { F.IsAlwaysCallable self.now.passes }
    {
        let mut lower = pair;
        let (moment, floor) = match direction {
            Direction::X => (&mut lower.mx, self.floor.mx),
            Direction::Y => (&mut lower.my, self.floor.my),
        };
        if *moment == floor {
            return Some(Stop::Floor);
        }
        *moment = moment.saturating_sub(1);
        self.lowest_failing(lower).map(Stop::Case)
    }

    // Whether a pair keeps the floors and every case passes it.
    fn safe(&self, pair: Pair) -> bool
        requires { F.IsAlwaysCallable self.now.passes }
    {
        self.floor.mx <= pair.mx && self.floor.my <= pair.my && self.lowest_failing(pair).is_none()
    }

    // The lowest number of a case that fails; the slots are in the order of entering, so every one is looked at.
    fn lowest_failing(&self, pair: Pair) -> Option<u32>
        requires { F.IsAlwaysCallable self.now.passes }
    {
        let passes = &self.passes;
        self.slots
            .iter()
            .flatten()
            .filter(|line| !passes(line.triad, pair))
            .map(|line| line.number)
            .min()
    }
}

// The yield criterion of a bottom face.
pub fn meets_yield(triad: Triad, pair: Pair) -> bool {
    let (spare_x, spare_y) = spare(triad, pair);
    let twist = triad.mxy as i64;
    0 <= spare_x && 0 <= spare_y && twist.wrapping_mul(twist) <= spare_x.wrapping_mul(spare_y)
}

// The box of a bottom face.
pub fn meets_box(triad: Triad, pair: Pair) -> bool {
    let (spare_x, spare_y) = spare(triad, pair);
    let twist = triad.mxy.unsigned_abs() as i64;
    twist <= spare_x && twist <= spare_y
}

// A triad as a top face sees it: each moment negated. The numbers are small here, and nothing wraps.
pub fn seen_from_top(triad: Triad) -> Triad {
    Triad {
        mx: triad.mx.wrapping_neg(),
        my: triad.my.wrapping_neg(),
        mxy: triad.mxy.wrapping_neg(),
    }
}

// What a pair has beyond the bending moments.
fn spare(triad: Triad, pair: Pair) -> (i64, i64) {
    (
        pair.mx as i64 - triad.mx as i64,
        pair.my as i64 - triad.my as i64,
    )
}

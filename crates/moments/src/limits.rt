// The limits, in units of 0.01 kNm per m, and the case numbers.
// Each is one constant here and one definition in specs/Limits.antt; contracts of the calls that use them hold the two together.
ghost use Rattle.std.specs.Prelude.{◌≡◌};
ghost use Rattle.moments.specs.Limits.{ceiling_limit};

// The largest moment of a load case, either way.
pub const MOMENT_LIMIT: i32 = 100_000;

// The largest ceiling of a yield rule, and the largest floor.
pub const CEILING_LIMIT: u32 = 20_000_000;

// Case numbers go from 1 to this.
pub const LAST_CASE: u32 = 9_999;

// How many load cases stand at a time, at most.
pub const MOST_LINES: usize = 96;

// The largest ceiling of a yield rule.
pub fn largest_ceiling() -> u32
    ensures { result ≡ ceiling_limit }
{
    CEILING_LIMIT
}

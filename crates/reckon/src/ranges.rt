// The ends of document 01's ranges, and the tests that several crates share: of the side D, of a soak rate, and of a
// depth and a last leaving.
ghost use Rattle.reckon.specs.Ranges.{RateJudged, SideJudged, WaterJudged};

pub const MOST_SIDE: u64 = 100;

pub const MOST_BED: u32 = 1_000_000_000;

pub const MOST_DEPTH: u32 = 100_000_000;

pub const MOST_ROUGHNESS: u32 = 10_000;

pub const MOST_TOLERANCE: u64 = 10_000;

pub const MOST_EDGE: u64 = 10_000;

pub const MOST_EDITION: u64 = 3;

pub const MOST_LENGTH: u64 = 60_000;

pub const MOST_UPDATE: u64 = 3_600_000;

pub const LAST_CLOCK: u64 = 604_800_000;

pub const MOST_RAIN: u64 = 1_000_000;

pub const MOST_LITRES: u64 = 100_000;

pub const MOST_OUTFLOW: u64 = 1_000_000_000_000_000;

pub const MOST_SOAK_RATE: u32 = 1_000_000;

pub const MOST_SOAKED: u64 = 1_000_000_000_000_000;

pub const MOST_TABLE_ROWS: usize = 64;

// Refusal 1: the side D is in range.
pub fn side_fine(side: u64) -> bool
    ensures { SideJudged side result }
{
    if side < 1 {
        return false;
    }
    side <= MOST_SIDE
}

// Refusal 2: the soak rate of a square not closed is in range.
pub fn rate_fine(rate: u32) -> bool
    ensures { RateJudged rate result }
{
    rate <= MOST_SOAK_RATE
}

// Refusal 3: depth and last leaving of a square not closed are in range.
pub fn water_fine(depth: u32, last: u32) -> bool
    ensures { WaterJudged depth last result }
{
    if MOST_DEPTH < depth {
        return false;
    }
    last <= MOST_DEPTH
}

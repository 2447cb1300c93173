// Runs vectors of the weighing and of the step-length candidates, worked outside Rattle by tests/vectors.py: a line for each row and
// each edition of the rule, its four transfers and the least of 60,000 and its candidates.

#![tactic(auto)]

ghost use Rattle.rule.specs.Inner.InRange.{Weighable, Candidacy};

use rule::length::shorter;
use rule::rules::Rules;
use rule::weighing::weigh;

const ROWS: usize = 65;

// The greatest depth, and the greatest drop.
const DEEP: u64 = 100_000_000;

const HIGH: u64 = 1_100_000_000;

// A row: D q d P k ms, and the drops north, east, south, west.
const VECTORS: [[u64; 10]; ROWS] = [
    // the worked cases of document 01
    [1, 100, 1000, 0, 100, 1000, 0, 1000, 0, 0],
    [1, 100, 969, 31, 100, 1000, 0, 938, 0, 0],
    [1, 0, 10_000, 0, 100, 1000, 10_000, 10_000, 10_000, 10_000],
    [1, 0, 1000, 0, 100, 1000, 0, 0, 0, 0],
    [10, 99, 1_000_000, 0, 500, 1000, 100_000, 0, 0, 0],
    [10, 100, 1_000_000, 0, 500, 1000, 100_000, 0, 0, 0],
    // no water, and the least water
    [1, 0, 0, 0, 100, 1000, 5, 6, 7, 8],
    [1, 0, 0, DEEP, 1, 60_000, HIGH, HIGH, HIGH, HIGH],
    [1, 0, 1, 0, 1, 60_000, 1, 0, 0, 0],
    [1, 0, 1, 0, 1, 60_000, 0, 0, 0, HIGH],
    [1, 0, 1, DEEP, 1, 60_000, HIGH, HIGH, HIGH, HIGH],
    [100, 0, 1, 0, 10_000, 1, 1, 1, 1, 1],
    [100, 0, 2, 5, 1, 60_000, 1, 2, 3, 4],
    [1, 0, 3, 0, 1, 60_000, 1, 1, 1, 1],
    // the deepest water
    [1, 0, DEEP, DEEP, 1, 60_000, HIGH, HIGH, HIGH, HIGH],
    [1, 0, DEEP, DEEP, 10_000, 60_000, HIGH, HIGH, HIGH, HIGH],
    [100, 0, DEEP, DEEP, 1, 60_000, HIGH, HIGH, HIGH, HIGH],
    [100, 0, DEEP, DEEP, 10_000, 1, HIGH, HIGH, HIGH, HIGH],
    [100, 10000, DEEP, DEEP, 10000, 60000, DEEP, DEEP, DEEP, DEEP],
    [100, 10000, DEEP, DEEP, 9999, 599, DEEP, 100000001, 0, HIGH],
    [1, 10_000, DEEP, 0, 10_000, 1, 1_000_000, 1_000_001, 0, 0],
    [1, 0, DEEP, DEEP, 1, 1, 1, 0, 0, 0],
    [1, 0, DEEP, DEEP, 1, 60_000, 1, 0, 0, 0],
    [1, 0, DEEP, DEEP, 1, 60_000, 1, 0, 0, HIGH],
    [1, 0, 99999999, 1, 9999, 59999, 1099999999, 0, 1099999999, 0],
    // each range by itself
    [1, 50, 250_000, 40_000, 300, 5000, 2000, 0, 30_000, 700],
    [100, 50, 250_000, 40_000, 300, 5000, 2000, 0, 3_000_000, 700],
    [10, 0, 250_000, 40_000, 1, 5000, 2000, 0, 30_000, 700],
    [10, 0, 250_000, 40_000, 10_000, 5000, 2000, 0, 30_000, 700],
    [10, 50, 250_000, 40_000, 300, 1, 2000, 0, 30_000, 700],
    [10, 50, 250_000, 40_000, 300, 60_000, 2000, 0, 30_000, 700],
    [10, 50, 250_000, 0, 300, 60_000, 2000, 0, 30_000, 700],
    [10, 50, 250_000, DEEP, 300, 60_000, 2000, 0, 30_000, 700],
    [1, 10000, 250000, DEEP, 300, 600, 1000000, 1000001, HIGH, 9],
    // one drop, on each side
    [5, 20, 123_456, 7890, 350, 2500, 45_678, 0, 0, 0],
    [5, 20, 123_456, 7890, 350, 2500, 0, 45_678, 0, 0],
    [5, 20, 123_456, 7890, 350, 2500, 0, 0, 45_678, 0],
    [5, 20, 123_456, 7890, 350, 2500, 0, 0, 0, 45_678],
    // equal drops, two to four, at the tolerance and just above it
    [2, 10, 50_000, 0, 250, 1500, 2000, 2000, 0, 0],
    [2, 10, 50_000, 0, 250, 1500, 2001, 2001, 2001, 0],
    [2, 10, 50_000, 0, 250, 1500, 2000, 2000, 2000, 2000],
    [2, 10, 50_000, 900, 250, 1500, 2001, 2001, 2001, 2001],
    // the least drop and the last leaving decide; then the speed; then the depth
    [1, 0, 5_000_000, 0, 100, 1000, 3, 40_000, 50_000, 60_000],
    [1, 0, 5_000_000, 7, 100, 1000, 3, 40_000, 50_000, 60_000],
    [1, 0, 5000000, 1000000, 100, 1000, 3, 40000, 50000, 60000],
    [1, 0, 5000000, DEEP, 100, 60000, 3, 40000, 50000, 60000],
    [2, 0, 8000, DEEP, 100, 1000, 900, 800, 700, 600],
    [1, 0, 1000, DEEP, 1, 60_000, 1000, 1001, 1002, 1003],
    // where roots and shares round: squares and cubes, and one below
    [1, 0, 1_000_000, 0, 1000, 1000, 10_000, 0, 0, 0],
    [1, 0, 999_999, 0, 1000, 1000, 9999, 0, 0, 0],
    [1, 0, 64, 100, 1, 60_000, 7, 5, 3, 1],
    [1, 0, 27, 100, 1, 60_000, 7, 5, 3, 1],
    [1, 0, 26, 100, 1, 60_000, 7, 5, 3, 1],
    [7, 3, 7654321, 123456, 77, 777, 17, 1717, 171717, 17171717],
    [99, 9, 98765432, 11111, 123, 4567, 1, 98765432, 1234567, 1],
    [13, 1, 31415926, 5358, 3238, 4626, 1300, 1301, 0, 33832795],
    // thin water on a gentle slope, which in whole mm/s stood still
    [10, 0, 10_000, 0, 3500, 60_000, 0, 100, 0, 0],
    [10, 0, 900, DEEP, 300, 60_000, 100, 0, 0, 0],
    [100, 0, 100_000, 0, 10_000, 60_000, 0, 0, 1000, 999],
    // the most through the steepest side just under, at and just over the depth, where its product comes to 10^19
    [100, 0, DEEP, DEEP, 1, 3192, HIGH, 1, 0, 0],
    [100, 0, DEEP, DEEP, 1, 3193, HIGH, 1, 0, 0],
    [100, 0, DEEP, DEEP, 7505, 3200, 118_504_996, 1, 0, 0],
    [100, 0, DEEP, DEEP, 6404, 3200, 86_285_521, 1, 0, 0],
    // Manning's speed at and one above the critical one
    [1, 0, 1000, DEEP, 10_000, 838, 98_099_121, 1, 0, 0],
    [1, 0, 1000, DEEP, 10_000, 838, 98_101_102, 1, 0, 0],
];

fn field(rt: &impl Print, n: u64) {
    let _ = print!(rt; "{n}");
    let _ = rt.write_all(b" ");
}

fn end_line(rt: &impl Print, n: u64) {
    let _ = print!(rt; "{n}");
    let _ = rt.write_all(b"\n");
}

fn out_of_range(rt: &impl Print) {
    let _ = rt.write_all(b"out of range\n");
}

// The line of a row whose numbers are in range.
fn answer(
    rt: &impl Print,
    rules: Rules,
    depth: u64,
    last: u64,
    roughness: u64,
    lasts: u64,
    drops: [u64; 4],
)
    requires { (Weighable rules depth last roughness lasts drops) × (Candidacy rules depth roughness drops) }
{
    let leaves = weigh(rules, depth, last, roughness, lasts, drops);
    field(rt, leaves[0]);
    field(rt, leaves[1]);
    field(rt, leaves[2]);
    field(rt, leaves[3]);
    end_line(rt, shorter(rules, 60_000, depth, roughness, drops));
}

// The line of a row by one edition.
fn edition_line(rt: &impl Print, row: [u64; 10], edition: u64) {
    let rules = Rules {
        square_side: row[0],
        tolerance: row[1],
        shortest: 1,
        longest: 60_000,
        update: 60_000,
        edge: 10_000,
        edition,
    };
    let depth = row[2];
    let last = row[3];
    let roughness = row[4];
    let lasts = row[5];
    let drops = [row[6], row[7], row[8], row[9]];
    if rules.square_side < 1 {
        return out_of_range(rt);
    }
    if 100 < rules.square_side {
        return out_of_range(rt);
    }
    if 10_000 < rules.tolerance {
        return out_of_range(rt);
    }
    if DEEP < depth {
        return out_of_range(rt);
    }
    if DEEP < last {
        return out_of_range(rt);
    }
    if roughness < 1 {
        return out_of_range(rt);
    }
    if 10_000 < roughness {
        return out_of_range(rt);
    }
    if 60_000 < lasts {
        return out_of_range(rt);
    }
    if HIGH < drops[0] {
        return out_of_range(rt);
    }
    if HIGH < drops[1] {
        return out_of_range(rt);
    }
    if HIGH < drops[2] {
        return out_of_range(rt);
    }
    if HIGH < drops[3] {
        return out_of_range(rt);
    }
    answer(rt, rules, depth, last, roughness, lasts, drops);
}

// The lines of a row, one for each edition.
fn line(rt: &impl Print, row: [u64; 10]) {
    edition_line(rt, row, 1);
    edition_line(rt, row, 2);
    edition_line(rt, row, 3);
}

fn main(rt: HostRuntime) {
    for row in &VECTORS {
        line(&rt, *row);
    }
}

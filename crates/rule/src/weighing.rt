// The weighing: what leaves one square through its four sides.
ghost use Rattle.std.specs.Prelude.{◌≡◌, ◌*◌, ◌/◌, ◌<◌, ◌≤◌, min, eqb, leb};
ghost use Rattle.reckon.specs.Ranges.{most_depth, most_length};
ghost use Rattle.rule.specs.Weighing.{lesser_positive, least_drop, greatest_drop, drop_sum, height_of, slope_of, critical_speed, most_through, through_sides, directed_amount, four_of, scaled_to, directed_sides, Weighs};
ghost use Rattle.rule.specs.Inner.InRange.{most_drop, most_slope, DropsInRange, SquareInRange, Weighable};
ghost use Rattle.rule.specs.Inner.Totals.{speed_by, most_by, limit_of, total_with, total_by, half_of, Totalled, AmountsWithin};

use crate::low_roots::{low_cube_root, low_square_root};
use crate::rules::Rules;
use reckon::numbers::{greater, lesser, part};
use reckon::roots::{cube_root, square_root};

// The acceleration of gravity as document 02 has it for speeds in µm/s under a depth in µm: c² ≤ 9,810,000·d.
const GRAVITY: u64 = 9_810_000;

// The critical speed of the greatest depth, µm/s.
const GREATEST_CRITICAL: u64 = 31_320_919;

// The editions whose rule is not document 01's.
const DIRECTED_EDITION: u64 = 2;

const UNLIMITED_EDITION: u64 = 3;

// The lesser of two drops that are positive, 0 where neither is.
fn lesser_positive(a: u64, b: u64) -> u64
    ensures { result ≡ lesser_positive a b }
{
    if a == 0 {
        return b;
    }
    if b == 0 {
        return a;
    }
    lesser(a, b)
}

pub(crate) fn least_drop(drops: [u64; 4]) -> u64
    ensures { result ≡ least_drop drops }
{
    lesser_positive(
        lesser_positive(drops[0], drops[1]),
        lesser_positive(drops[2], drops[3]),
    )
}

fn greatest_drop(drops: [u64; 4]) -> u64
    ensures { result ≡ greatest_drop drops }
{
    greater(greater(drops[0], drops[1]), greater(drops[2], drops[3]))
}

// The four, and the least again.
fn drop_sum(drops: [u64; 4], least: u64) -> u64
    requires drops_in_range { DropsInRange drops }
    requires least_value { least ≡ least_drop drops }
    ensures { result ≡ drop_sum drops }
{
    drops[0] + drops[1] + drops[2] + drops[3] + least
}

pub(crate) fn height(depth: u64) -> u64
    requires { depth ≤ most_depth }
    ensures { result ≡ height_of depth }
{
    cube_root(depth * depth)
}

pub(crate) fn slope(rules: Rules, drop: u64) -> u64
    requires { (0 < rules.square_side) × (drop ≤ most_drop) }
    ensures { result ≡ slope_of rules drop }
{
    square_root(100 * drop / rules.square_side)
}

// The critical speed, µm/s.
fn critical_speed(depth: u64) -> u64
    requires { depth ≤ most_depth }
    ensures { result ≡ critical_speed depth }
{
    square_root(GRAVITY * depth)
}

// Whether a speed is at most the critical one, told without its root. The first test keeps the square within 64 bits.
fn is_subcritical(depth: u64, speed: u64) -> bool
    requires { depth ≤ most_depth }
    ensures { result ≡ leb (speed * speed) (9_810_000 * depth) }
{
    if GREATEST_CRITICAL < speed {
        return false;
    }
    speed * speed <= GRAVITY * depth
}

// The smaller of critical and Manning speed, µm/s, by a height and a slope, or by bounds of them. In most squares it is Manning's, and
// the critical root is not found.
fn speed(depth: u64, high: u64, steep: u64, roughness: u64) -> u64
    requires { (depth ≤ most_depth) × (high ≤ height_of depth) × (steep ≤ most_slope) × (1 ≤ roughness) }
    ensures { result ≡ speed_by depth high steep roughness }
{
    let manning = 100 * high * steep / roughness;
    if is_subcritical(depth, manning) {
        return manning;
    }
    critical_speed(depth)
}

// The most through a side by that speed, held to the depth: as it stands it passes 64 bits.
fn most_by(rules: Rules, depth: u64, high: u64, steep: u64, roughness: u64, lasts: u64) -> u64
    requires { (SquareInRange rules depth roughness) × (high ≤ height_of depth) × (steep ≤ most_slope) × (lasts ≤ most_length) }
    ensures { result ≡ most_by rules depth high steep roughness lasts }
{
    let moved = speed(depth, high, steep, roughness) * lasts;
    part(depth, moved, rules.square_side * 1_000_000_000)
}

// The most through a side by the square's height and the side's drop.
fn most_held(rules: Rules, depth: u64, high: u64, roughness: u64, lasts: u64, drop: u64) -> u64
    requires { (SquareInRange rules depth roughness) × (drop ≤ most_drop) × (lasts ≤ most_length) × (high ≡ height_of depth) }
    ensures { result ≡ min depth (most_through rules depth roughness lasts drop) }
{
    most_by(rules, depth, high, slope(rules, drop), roughness, lasts)
}

// What may leave at any speed: with edition 3 the least drop and the last leaving set no limit.
fn limit(rules: Rules, depth: u64, last: u64, least: u64) -> u64
    requires { (last ≤ most_depth) × (least ≤ most_drop) }
    ensures { result ≡ limit_of rules depth last least }
{
    if rules.edition == UNLIMITED_EDITION {
        return depth;
    }
    lesser(depth, least + last)
}

// What the speed lets through, from the most through the steepest side. Where T is twice VM, as with one drop alone, nothing is divided.
fn by_speed(most: u64, sum: u64, steepest: u64) -> u64
    requires { (most ≤ most_depth) × (sum ≤ 5 * most_drop) × (0 < steepest) × (steepest ≤ most_drop) }
    ensures { result ≡ most * sum / steepest }
{
    if sum == 2 * steepest {
        return 2 * most;
    }
    most * sum / steepest
}

// A bound from below on the most through a side, by a height and a slope that are surely no greater: no root is found.
fn most_at_least(rules: Rules, depth: u64, roughness: u64, lasts: u64, drop: u64) -> u64
    requires { (SquareInRange rules depth roughness) × (drop ≤ most_drop) × (lasts ≤ most_length) }
    ensures { result ≤ min depth (most_through rules depth roughness lasts drop) }
{
    let high = low_cube_root(depth * depth);
    let steep = low_square_root(100 * drop / rules.square_side);
    most_by(rules, depth, high, steep, roughness, lasts)
}

// All that leaves. Where the bound already reaches the limit, no root is found.
fn total(
    rules: Rules,
    depth: u64,
    last: u64,
    roughness: u64,
    lasts: u64,
    steepest: u64,
    least: u64,
    sum: u64,
) -> u64
    requires { Totalled rules depth last roughness lasts steepest least sum }
    ensures { result ≡ total_with rules depth last roughness lasts steepest least sum }
{
    let limit = limit(rules, depth, last, least);
    let at_least = most_at_least(rules, depth, roughness, lasts, steepest);
    if limit * steepest <= at_least * sum {
        return limit;
    }
    let steep = slope(rules, steepest);
    let most = most_by(rules, depth, height(depth), steep, roughness, lasts);
    lesser(limit, by_speed(most, sum, steepest))
}

// A share of an amount: so many parts of the sum of parts.
fn share(amount: u64, parts: u64, sum: u64) -> u64
    requires { (amount ≤ most_depth) × (parts ≤ most_drop) × (0 < sum) }
    ensures { result ≡ amount * parts / sum }
{
    if parts == 0 {
        return 0;
    }
    amount * parts / sum
}

fn through_sides(total: u64, drops: [u64; 4], sum: u64) -> [u64; 4]
    requires drops_in_range { DropsInRange drops }
    requires total_le_most_depth { (total ≤ most_depth) × (0 < sum) × (sum ≡ drop_sum drops) }
    ensures { result ≡ through_sides total drops }
{
    [
        share(total, drops[0], sum),
        share(total, drops[1], sum),
        share(total, drops[2], sum),
        share(total, drops[3], sum),
    ]
}

// Whether one side alone has a drop, where one has: the four come to no more than the steepest.
fn has_one_drop(drops: [u64; 4], steepest: u64) -> bool
    requires { DropsInRange drops }
    ensures { result ≡ eqb (four_of drops) steepest }
{
    drops[0] + drops[1] + drops[2] + drops[3] == steepest
}

// One drop's share of a total: T is twice that drop.
fn half(total: u64, drop: u64) -> u64
    ensures { result ≡ half_of total drop }
{
    if drop == 0 {
        return 0;
    }
    total / 2
}

fn halves(total: u64, drops: [u64; 4]) -> [u64; 4]
    requires { (0 < greatest_drop drops) × (four_of drops ≡ greatest_drop drops) }
    ensures { result ≡ through_sides total drops }
{
    [
        half(total, drops[0]),
        half(total, drops[1]),
        half(total, drops[2]),
        half(total, drops[3]),
    ]
}

// By total: what leaves through the four sides, where there is water and a drop.
fn by_total(
    rules: Rules,
    depth: u64,
    last: u64,
    roughness: u64,
    lasts: u64,
    drops: [u64; 4],
) -> [u64; 4]
    requires weighable { Weighable rules depth last roughness lasts drops }
    requires drops_nonzero { 0 < greatest_drop drops }
    ensures { result ≡ through_sides (total_by rules depth last roughness lasts drops) drops }
{
    let steepest = greatest_drop(drops);
    let least = least_drop(drops);
    let sum = drop_sum(drops, least);
    let all = total(rules, depth, last, roughness, lasts, steepest, least, sum);
    if has_one_drop(drops, steepest) {
        return halves(all, drops);
    }
    through_sides(all, drops, sum)
}

// Edition 2: what one side's own drop moves.
fn directed_amount(
    rules: Rules,
    depth: u64,
    high: u64,
    roughness: u64,
    lasts: u64,
    drop: u64,
) -> u64
    requires { (SquareInRange rules depth roughness) × (drop ≤ most_drop) × (lasts ≤ most_length) × (high ≡ height_of depth) }
    ensures { result ≡ directed_amount rules depth roughness lasts drop }
{
    if drop == 0 {
        return 0;
    }
    most_held(rules, depth, high, roughness, lasts, drop)
}

// Edition 2: the four amounts as they stand, and where they sum to more than the depth, each cut down in proportion.
fn scaled(depth: u64, amounts: [u64; 4]) -> [u64; 4]
    requires { (depth ≤ most_depth) × (AmountsWithin depth amounts) }
    ensures { result ≡ scaled_to depth amounts }
{
    let sum = amounts[0] + amounts[1] + amounts[2] + amounts[3];
    if sum <= depth {
        return amounts;
    }
    [
        share(amounts[0], depth, sum),
        share(amounts[1], depth, sum),
        share(amounts[2], depth, sum),
        share(amounts[3], depth, sum),
    ]
}

// Edition 2: what leaves through the four sides, each by its own drop.
fn directed(rules: Rules, depth: u64, roughness: u64, lasts: u64, drops: [u64; 4]) -> [u64; 4]
    requires { (SquareInRange rules depth roughness) × (lasts ≤ most_length) × (DropsInRange drops) }
    ensures { result ≡ directed_sides rules depth roughness lasts drops }
{
    let high = height(depth);
    let north = directed_amount(rules, depth, high, roughness, lasts, drops[0]);
    let east = directed_amount(rules, depth, high, roughness, lasts, drops[1]);
    let south = directed_amount(rules, depth, high, roughness, lasts, drops[2]);
    let west = directed_amount(rules, depth, high, roughness, lasts, drops[3]);
    scaled(depth, [north, east, south, west])
}

// What leaves through the four sides, north, east, south, west, by the rules' edition.
pub fn weigh(
    rules: Rules,
    depth: u64,
    last: u64,
    roughness: u64,
    lasts: u64,
    drops: [u64; 4],
) -> [u64; 4]
    requires { Weighable rules depth last roughness lasts drops }
    ensures { Weighs rules depth last roughness lasts drops result }
{
    if depth == 0 {
        return [0, 0, 0, 0];
    }
    if greatest_drop(drops) == 0 {
        return [0, 0, 0, 0];
    }
    if rules.edition == DIRECTED_EDITION {
        return directed(rules, depth, roughness, lasts, drops);
    }
    by_total(rules, depth, last, roughness, lasts, drops)
}

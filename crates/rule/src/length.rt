// Step length: the candidates of a square, the length that is held, and how long a step lasts.
ghost use Rattle.std.specs.Prelude.{◌≡◌, ◌<◌, ◌≤◌};
ghost use Rattle.reckon.specs.Tests.{pick};
ghost use Rattle.reckon.specs.Ranges.{most_length, most_tolerance, most_update};
ghost use Rattle.rule.specs.Inner.InRange.{most_drop, SquareInRange, Candidacy};
ghost use Rattle.rule.specs.Bounds.{StepsOver};
ghost use Rattle.rule.specs.Length.{candidate, counts, Shorter, HeldLength, IsUpdate, DurationFor};

use crate::rules::Rules;
use crate::weighing::{height, least_drop, slope};
use reckon::numbers::{greater, lesser};

// How long a step may last by one side of a square with water, ms.
fn side_candidate(rules: Rules, depth: u64, roughness: u64, drop: u64) -> u64
    requires { (SquareInRange rules depth roughness) × (0 < depth) × (drop ≤ most_drop) }
    ensures { result ≡ candidate rules depth roughness drop }
{
    let side = rules.square_side;
    50_000 * side * side * roughness * slope(rules, drop) / (depth * height(depth))
}

// The drop, where it is above the tolerance; else 0.
fn counting(rules: Rules, drop: u64) -> u64
    requires { (rules.tolerance ≤ most_tolerance) × (rules.square_side ≤ 100) }
    ensures { result ≡ pick (counts rules drop) drop 0 }
{
    if rules.tolerance * 100 * rules.square_side < drop {
        return drop;
    }
    0
}

// The least of best and the square's candidates. A gentler drop has the lesser candidate, so that the gentlest that counts decides.
pub fn shorter(rules: Rules, best: u64, depth: u64, roughness: u64, drops: [u64; 4]) -> u64
    requires { Candidacy rules depth roughness drops }
    ensures { Shorter rules best depth roughness drops result }
{
    if depth == 0 {
        return best;
    }
    let north = counting(rules, drops[0]);
    let east = counting(rules, drops[1]);
    let south = counting(rules, drops[2]);
    let west = counting(rules, drops[3]);
    let gentlest = least_drop([north, east, south, west]);
    if gentlest == 0 {
        return best;
    }
    lesser(best, side_candidate(rules, depth, roughness, gentlest))
}

// A candidate held between shortest and longest.
pub fn held_length(rules: Rules, candidate: u64) -> u64
    ensures { HeldLength rules candidate result }
{
    greater(rules.shortest, lesser(rules.longest, candidate))
}

// Whether the length is worked afresh at this clock.
pub fn is_update(rules: Rules, clock: u64) -> bool
    requires { 0 < rules.update }
    ensures { IsUpdate rules clock result }
{
    clock % rules.update == 0
}

// How long a step of a given length lasts, so that no step passes a multiple of U.
pub fn duration_for(rules: Rules, clock: u64, length: u64) -> u64
    requires { 0 < rules.update }
    ensures { DurationFor rules clock length result }
{
    let update = rules.update;
    lesser(length, update - clock % update)
}

// How many steps of a length a time needs: the least whole number not below time / length.
pub fn steps_over(time: u64, length: u64) -> u64
    requires { (time ≤ most_update) × (1 ≤ length) × (length ≤ most_length) }
    ensures { StepsOver time length result }
{
    (time + length - 1) / length
}

// How many steps a run can need, told before it is made.
ghost use Rattle.std.specs.Prelude.{◌≡◌, ◌<◌, ◌≤◌};
ghost use Rattle.reckon.specs.Ranges.{last_clock};
ghost use Rattle.rule.specs.Inner.InRange.{RulesInRange};
ghost use Rattle.checks.specs.Bounds.{BoundsSteps, bounds_number, figures, spans_whole};

use crate::refusals::rules_and_end_fine;
use reckon::ranges::{LAST_CLOCK, side_fine};
use rule::length::{is_update, steps_over};
use rule::rules::Rules;

// The most and the least steps of a run that is not refused.
#[derive(Clone, Copy)]
pub struct StepBounds {
    pub most: u64,
    pub least: u64,
}

// NotBounded: the clock is no multiple of U, or the end comes before it.
#[derive(Clone, Copy)]
pub enum Bounds {
    Bounded(StepBounds),
    NotBounded,
    Refused(u32),
}

// The number of the first refusal, 0 for none.
fn bounds_number(rules: Rules, clock: u64, end: u64) -> u32
    ensures { result ≡ bounds_number rules clock end }
{
    if !side_fine(rules.square_side) {
        return 1;
    }
    if !rules_and_end_fine(rules, end) {
        return 5;
    }
    if LAST_CLOCK < clock {
        return 6;
    }
    0
}

// Whether only whole spans of U lie between the clock and an end that is a multiple of U.
fn spans_whole(rules: Rules, clock: u64, end: u64) -> bool
    requires { 0 < rules.update }
    ensures { result ≡ spans_whole rules clock end }
{
    if !is_update(rules, clock) {
        return false;
    }
    clock <= end
}

// Both figures: the spans, and in each the steps of the shortest and of the longest length.
fn figures_of(rules: Rules, clock: u64, end: u64) -> StepBounds
    requires { (RulesInRange rules) × (clock ≤ end) × (end ≤ last_clock) }
    ensures { result ≡ figures rules clock end }
{
    let update = rules.update;
    let spans = (end - clock) / update;
    StepBounds {
        most: spans * steps_over(update, rules.shortest),
        least: spans * steps_over(update, rules.longest),
    }
}

// The most and the least steps of a run from a clock to an end, before it is made.
pub fn step_bounds(rules: Rules, clock: u64, end: u64) -> Bounds
    ensures { BoundsSteps rules clock end result }
{
    let number = bounds_number(rules, clock, end);
    if number != 0 {
        return Bounds::Refused(number);
    }
    if !spans_whole(rules, clock, end) {
        return Bounds::NotBounded;
    }
    Bounds::Bounded(figures_of(rules, clock, end))
}

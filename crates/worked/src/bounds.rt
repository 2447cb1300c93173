// The most and the least steps of a run, told before it, and runs that meet both where rounding tells.
use crate::meadow::{Meadow, ROOM, freshened, ran, sheet, show_run};
use crate::printing::{end_line, field, words};
use checks::bounds::{Bounds, step_bounds};
use rule::rules::Rules;

// Both figures, that they do not hold, or the refusal's number.
fn tell_answer(rt: &impl Print, answer: Bounds) {
    match answer {
        Bounds::Bounded(figures) => {
            field(rt, b"bounds most", figures.most);
            field(rt, b" least", figures.least);
        }
        Bounds::NotBounded => {
            words(rt, b"bounds none");
        }
        Bounds::Refused(number) => {
            field(rt, b"bounds refused", number as u64);
        }
    }
    end_line(rt);
}

fn tell_bounds(rt: &impl Print, rules: Rules, clock: u64, end: u64) {
    tell_answer(rt, step_bounds(rules, clock, end));
}

// Neither length divides U: 4 steps of the shortest and 2 of the longest come to a span.
fn uneven() -> Meadow {
    let mut m = sheet(ROOM);
    m.rules.shortest = 300;
    m.rules.longest = 700;
    m
}

// Both figures, and then the run itself.
fn told_and_run(rt: &impl Print, m: Meadow, end: u64) {
    let rules = m.rules;
    let run = m.run;
    tell_bounds(rt, rules, run.clock, end);
    show_run(rt, ran(m, end));
}

// A hatch of 2,000 litres a second keeps the water so deep that every span is held at the shortest: the most.
fn held_at_the_shortest(rt: &impl Print) {
    let mut m = freshened(uneven());
    m.depths[0] = 1_000_000;
    let inflow = [0, 0, 0, 60_000, 2000];
    m.inflow = inflow;
    told_and_run(rt, m, 3000);
}

// No water, so that every span is held at the longest: the least.
fn dry_meadow(rt: &impl Print) {
    let mut m = freshened(uneven());
    m.depths[0] = 0;
    told_and_run(rt, m, 3000);
}

// A run that is refused midway makes fewer than the least.
fn refused_below_the_least(rt: &impl Print) {
    let mut m = freshened(uneven());
    m.depths[0] = 99_999_985;
    m.depths[1] = 99_999_985;
    m.rain[1] = 60_000;
    m.rain[2] = 36_000;
    told_and_run(rt, m, 3000);
}

// The last span of all, an end that is the clock, an end before it, and a clock between multiples of U.
fn other_clocks(rt: &impl Print) {
    let m = uneven();
    let rules = m.rules;
    tell_bounds(rt, rules, 604_799_000, 604_800_000);
    tell_bounds(rt, rules, 2000, 2000);
    tell_bounds(rt, rules, 2000, 1000);
    tell_bounds(rt, rules, 1999, 3000);
}

// Bad rules, end and clock, each by its number in the table's order; all of them are before the case of its own.
fn refused_bounds(rt: &impl Print) {
    let m = uneven();
    let mut rules = m.rules;
    tell_bounds(rt, rules, 604_800_001, 604_800_000);
    tell_bounds(rt, rules, 604_800_001, 604_801_000);
    tell_bounds(rt, rules, 0, 1500);
    rules.update = 0;
    tell_bounds(rt, rules, 0, 0);
    rules.square_side = 101;
    tell_bounds(rt, rules, 604_800_001, 1);
}

pub(crate) fn bounds(rt: &impl Print) {
    words(rt, b"how many steps\n");
    held_at_the_shortest(rt);
    dry_meadow(rt);
    refused_below_the_least(rt);
    other_clocks(rt);
    refused_bounds(rt);
}

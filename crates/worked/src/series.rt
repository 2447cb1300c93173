// Series of calls on one meadow, with what each gives.
use crate::meadow::{
    Meadow, ROOM, freshened, ran, rules_of, sheet, show, show_run, stepped, taken_back,
};
use crate::printing::words;
use crate::same::same_state;

fn show_fresh(rt: &impl Print, m: Meadow) -> Meadow {
    let new = freshened(m);
    show(rt, b"fresh", new);
    new
}

fn show_step(rt: &impl Print, m: Meadow) -> Meadow {
    let new = stepped(m);
    show(rt, b"step", new);
    new
}

fn show_back(rt: &impl Print, m: Meadow) -> Meadow {
    let new = taken_back(m);
    show(rt, b"take-back", new);
    new
}

fn tell_same(rt: &impl Print, a: Meadow, b: Meadow) {
    if same_state(a, b) {
        words(rt, b"the same but for kept\n");
        return;
    }
    words(rt, b"not the same\n");
}

// Depth 100,000,000 is taken; 100,000,001 is refused with 3.
pub(crate) fn depth_limit(rt: &impl Print) {
    words(rt, b"depth limit\n");
    let mut m = show_fresh(rt, sheet(ROOM));
    m.depths[0] = 100_000_000;
    show_step(rt, m);
    m.depths[0] = 100_000_001;
    show_step(rt, m);
}

// K = 1: step, step, take-back, take-back.
pub(crate) fn one_record(rt: &impl Print) {
    words(rt, b"one record\n");
    let start = show_fresh(rt, sheet(30));
    let one = show_step(rt, start);
    let two = show_step(rt, one);
    let back = show_back(rt, two);
    show_back(rt, back);
}

// A run whose third step would raise a depth above 100,000,000.
pub(crate) fn refused_midway(rt: &impl Print) {
    words(rt, b"refused midway\n");
    let mut m = show_fresh(rt, sheet(ROOM));
    m.depths[0] = 99_999_975;
    m.depths[1] = 99_999_970;
    m.rain[1] = 60_000;
    m.rain[2] = 36_000;
    show_run(rt, ran(m, 5000));
}

// A closed square, an exit, rain and inflow.
fn varied() -> Meadow {
    let mut m = sheet(ROOM);
    m.rules = rules_of(2, 10, 100, 2000, 2500);
    let marks = [1, 1, 0, 2];
    m.marks = marks;
    let beds = [2000, 1500, 0, 0];
    m.beds = beds;
    let roughness = [300, 250, 0, 200];
    m.roughness = roughness;
    let rain = [500, 9000, 720_000];
    m.rain = rain;
    let inflow = [0, 0, 0, 6000, 3];
    m.inflow = inflow;
    let depths = [50_000, 0, 5, 1000];
    m.depths = depths;
    let lasts = [1, 2, 3, 4];
    m.lasts = lasts;
    m
}

fn two_steps(rt: &impl Print, m: Meadow) -> Meadow {
    show_step(rt, show_step(rt, m))
}

fn three_steps(rt: &impl Print, m: Meadow) -> Meadow {
    show_step(rt, two_steps(rt, m))
}

fn three_back(rt: &impl Print, m: Meadow) -> Meadow {
    show_back(rt, show_back(rt, show_back(rt, m)))
}

// K = 3: five steps and three take-backs, then a fresh run with the two steps that stand.
pub(crate) fn three_records(rt: &impl Print) {
    words(rt, b"three records\n");
    let back = three_back(rt, two_steps(rt, three_steps(rt, show_fresh(rt, varied()))));
    let stand = two_steps(rt, show_fresh(rt, varied()));
    tell_same(rt, back, stand);
}

// Other rules, beds and tables.
fn second(m: Meadow) -> Meadow {
    let mut new = m;
    new.rules = rules_of(5, 0, 50, 400, 300);
    let beds = [0, 40_000, 0, 60_000];
    new.beds = beds;
    let rain = [0, 9000, 0];
    new.rain = rain;
    let inflow = [1, 1, 0, 9000, 100];
    new.inflow = inflow;
    new
}

// And others again.
fn third(m: Meadow) -> Meadow {
    let mut new = m;
    new.rules = rules_of(1, 5000, 1, 60_000, 3_600_000);
    let beds = [1_000_000, 0, 0, 5];
    new.beds = beds;
    let roughness = [1, 10_000, 0, 1];
    new.roughness = roughness;
    let rain = [0, 604_800_000, 1_000_000];
    new.rain = rain;
    let inflow = [0, 1, 100, 200, 100];
    new.inflow = inflow;
    new
}

fn changed(rt: &impl Print, start: Meadow) -> Meadow {
    let two = show_step(rt, second(show_step(rt, start)));
    show_step(rt, third(two))
}

// Rules, beds and tables that differ from step to step, and none of them asked for by the take-backs.
pub(crate) fn changing(rt: &impl Print) {
    words(rt, b"changing\n");
    let start = show_fresh(rt, varied());
    tell_same(rt, three_back(rt, changed(rt, start)), start);
}

// What soaks is due by the clock: half a micrometre a step comes to one every other step. The due of a dry square is lost, what arrives is
// not soaked in its step, and a closed square's rate does not matter; taken back, all of it returns.
pub(crate) fn soaking(rt: &impl Print) {
    words(rt, b"soaking\n");
    let mut m = sheet(ROOM);
    m.rates[0] = 1800;
    m.rates[1] = 1_000_000;
    let start = show_fresh(rt, m);
    tell_same(rt, three_back(rt, three_steps(rt, start)), start);
}

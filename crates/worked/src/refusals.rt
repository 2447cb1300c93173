// Each refusal once, with all that the call could write compared before and after.
use crate::meadow::{Meadow, ROOM, freshened, ran, sheet, stepped, taken_back};
use crate::printing::{field, words};
use crate::same::as_it_was;

fn tell(rt: &impl Print, call: &[u8], refused: u32, same: bool) {
    field(rt, call, refused as u64);
    if same {
        words(rt, b", as it was\n");
        return;
    }
    words(rt, b", changed\n");
}

fn tell_step(rt: &impl Print, m: Meadow) {
    let after = stepped(m);
    tell(rt, b"step refused", after.refused, as_it_was(m, after));
}

fn tell_run(rt: &impl Print, m: Meadow, end: u64) {
    let after = ran(m, end);
    tell(rt, b"run refused", after.refused, as_it_was(m, after));
}

fn tell_back(rt: &impl Print, m: Meadow) {
    let after = taken_back(m);
    tell(rt, b"take-back refused", after.refused, as_it_was(m, after));
}

// A meadow with one record.
fn moving() -> Meadow {
    stepped(freshened(sheet(ROOM)))
}

fn shape(rt: &impl Print) {
    let mut m = moving();
    m.shape.columns = 3;
    tell_step(rt, m);
}

fn mark(rt: &impl Print) {
    let mut m = moving();
    m.marks[1] = 3;
    tell_step(rt, m);
}

fn rate(rt: &impl Print) {
    let mut m = moving();
    m.rates[0] = 1_000_001;
    tell_step(rt, m);
}

fn last(rt: &impl Print) {
    let mut m = moving();
    m.lasts[0] = 100_000_001;
    tell_step(rt, m);
}

// From 1 to 0.
fn table(rt: &impl Print) {
    let mut m = moving();
    m.rain[0] = 1;
    tell_step(rt, m);
}

fn tolerance(rt: &impl Print) {
    let mut m = moving();
    m.rules.tolerance = 10_001;
    tell_step(rt, m);
}

fn end(rt: &impl Print) {
    tell_run(rt, moving(), 1500);
}

// Room for no record.
fn room(rt: &impl Print) {
    let mut m = moving();
    m.room = 29;
    tell_step(rt, m);
}

fn kept(rt: &impl Print) {
    let mut m = moving();
    m.run.kept = 4;
    tell_step(rt, m);
}

fn total_soaked(rt: &impl Print) {
    let mut m = moving();
    m.run.soaked = 1_000_000_000_000_001;
    tell_step(rt, m);
}

fn clock(rt: &impl Print) {
    let mut m = moving();
    m.run.clock = 604_800_000;
    tell_step(rt, m);
}

// Rain on two full squares.
fn depth(rt: &impl Print) {
    let mut m = moving();
    m.depths[0] = 100_000_000;
    m.depths[1] = 100_000_000;
    m.rain[1] = 2000;
    m.rain[2] = 3600;
    tell_step(rt, m);
}

// An exit sends more off the grid.
fn outflow(rt: &impl Print) {
    let mut m = moving();
    m.marks[1] = 2;
    m.depths[1] = 10_000;
    m.run.outflow = 1_000_000_000_000_000;
    tell_step(rt, m);
}

// More soaks than the total can count; and an outflow too much comes before it.
fn soaked(rt: &impl Print) {
    let mut m = moving();
    m.rates[0] = 1_000_000;
    m.run.soaked = 1_000_000_000_000_000;
    tell_step(rt, m);
    m.marks[1] = 2;
    m.depths[1] = 10_000;
    m.run.outflow = 1_000_000_000_000_000;
    tell_step(rt, m);
}

fn nothing_kept(rt: &impl Print) {
    tell_back(rt, freshened(sheet(ROOM)));
}

// A step that lasted 0 ms.
fn forged(rt: &impl Print) {
    let mut m = moving();
    m.records[1] = 0;
    tell_back(rt, m);
}

// A step longer than the clock.
fn too_long(rt: &impl Print) {
    let mut m = moving();
    m.run.clock = 999;
    tell_back(rt, m);
}

// A step that soaked more than the total.
fn soaked_more(rt: &impl Print) {
    let mut m = moving();
    m.records[8] = 1;
    tell_back(rt, m);
}

fn by_input(rt: &impl Print) {
    shape(rt);
    mark(rt);
    rate(rt);
    last(rt);
    table(rt);
    tolerance(rt);
    end(rt);
    room(rt);
    kept(rt);
    total_soaked(rt);
}

pub(crate) fn refusals(rt: &impl Print) {
    by_input(rt);
    clock(rt);
    depth(rt);
    outflow(rt);
    soaked(rt);
    nothing_kept(rt);
    forged(rt);
    too_long(rt);
    soaked_more(rt);
}

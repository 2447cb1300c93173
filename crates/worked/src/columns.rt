// A row of 64 columns is taken, and one of 65 refused with 1.
use crate::meadow::{ROOM, number_of, run_after, sheet};
use crate::printing::{end_line, field, run_fields};
use checks::fresh::fresh_run;
use flood::step::step;
use grid::squares::Shape;
use grid::walks::Walk;
use ledger::runs::{Answer, Run};
use rule::rules::Rules;

fn rules() -> Rules {
    let m = sheet(ROOM);
    let mut rules = m.rules;
    rules.tolerance = 0;
    rules
}

fn start() -> Run {
    fresh_run(rules(), 1)
}

// The answer, and the first two depths.
fn line(rt: &impl Print, name: &[u8], answer: Answer, first: u32, second: u32) {
    field(rt, name, number_of(answer) as u64);
    run_fields(rt, run_after(answer, start()));
    field(rt, b" depths", first as u64);
    field(rt, b"", second as u64);
    end_line(rt);
}

fn columns_64(rt: &impl Print) {
    let shape = Shape {
        rows: 1,
        columns: 64,
    };
    let marks = [1u8; 64];
    let beds = [0u32; 64];
    let roughness = [100u32; 64];
    let rates = [0u32; 64];
    let rain = [0u32; 3];
    let inflow = [0u32; 5];
    let mut depths = [1000u32; 64];
    depths[0] = 2000;
    let mut lasts = [0u32; 64];
    let mut records = [0u32; 450];
    let answer = step(
        Walk::All,
        shape,
        rules(),
        start(),
        &marks,
        &beds,
        &roughness,
        &rates,
        &rain,
        &inflow,
        &mut depths,
        &mut lasts,
        &mut records,
    );
    line(rt, b"64 columns refused", answer, depths[0], depths[1]);
}

fn columns_65(rt: &impl Print) {
    let shape = Shape {
        rows: 1,
        columns: 65,
    };
    let marks = [1u8; 65];
    let beds = [0u32; 65];
    let roughness = [100u32; 65];
    let rates = [0u32; 65];
    let rain = [0u32; 3];
    let inflow = [0u32; 5];
    let mut depths = [1000u32; 65];
    depths[0] = 2000;
    let mut lasts = [0u32; 65];
    let mut records = [0u32; 457];
    let answer = step(
        Walk::All,
        shape,
        rules(),
        start(),
        &marks,
        &beds,
        &roughness,
        &rates,
        &rain,
        &inflow,
        &mut depths,
        &mut lasts,
        &mut records,
    );
    line(rt, b"65 columns refused", answer, depths[0], depths[1]);
}

pub(crate) fn column_limit(rt: &impl Print) {
    columns_64(rt);
    columns_65(rt);
}

// Shows what is seen of a small meadow with closed squares, an exit, a dry and a still square: the arrow of each square, its speeds east
// and north as bit patterns, and the wet rows; after a step, after another, and after a take-back, which must show the first step's
// again. Then each refusal.

#![tactic(auto)]

use checks::fresh::{fresh, fresh_run};
use flood::step::step;
use grid::squares::Shape;
use grid::walks::Walk;
use ledger::runs::{Answer, Run};
use ledger::take_back::take_back;
use rule::rules::Rules;
use sight::arrows::{Sight, arrow};
use sight::speeds::Arrow;
use sight::wet_rows::{Wet, wet_rows};

const SHAPE: Shape = Shape {
    rows: 3,
    columns: 3,
};

const RULES: Rules = Rules {
    square_side: 1,
    tolerance: 0,
    shortest: 1000,
    longest: 1000,
    update: 1000,
    edge: 10_000,
    edition: 1,
};

const MARKS: [u8; 9] = [1, 1, 0, 2, 1, 1, 1, 1, 0];

const BEDS: [u32; 9] = [0, 0, 0, 0, 1_000_000, 0, 20_000, 10_000, 0];

const ROUGHNESS: [u32; 9] = [100, 100, 0, 50, 100, 100, 200, 100, 0];

// Nothing soaks here, whatever the closed squares' rates say.
const RATES: [u32; 9] = [0, 0, 1_000_001, 0, 0, 0, 0, 0, 5];

// The closed squares hold water as well: it must never be seen.
const DEPTHS: [u32; 9] = [30_000, 10_000, 9, 20_000, 0, 500, 7000, 400, 77];

// Two records of this meadow.
const ROOM: usize = 130;

fn words(rt: &impl Print, text: &[u8]) {
    let _ = rt.write_all(text);
}

fn numbered(rt: &impl Print, text: &[u8], number: u64) {
    words(rt, text);
    let _ = print!(rt; "{number}");
}

// A speed's bit pattern.
fn speed(rt: &impl Print, name: &[u8], speed: f64) {
    words(rt, name);
    if speed != speed {
        words(rt, b" not a number");
        return;
    }
    let bits = speed.to_bits();
    let _ = print!(rt; "{bits:016x}");
}

fn moving(rt: &impl Print, arrow: Arrow) {
    speed(rt, b"moving east ", arrow.east);
    speed(rt, b" north ", arrow.north);
}

fn tell(rt: &impl Print, sight: Sight) {
    match sight {
        Sight::Closed => words(rt, b"closed"),
        Sight::Dry => words(rt, b"dry"),
        Sight::Still => words(rt, b"still"),
        Sight::Moving(arrow) => moving(rt, arrow),
        Sight::Refused(number) => numbered(rt, b"refused ", number as u64),
    };
    words(rt, b"\n");
}

// The arrow of each square.
fn tell_arrows(rt: &impl Print, run: Run, depths: &[u32], records: &[u32]) {
    let marks = MARKS;
    for square in 0..9 {
        numbered(rt, b"square ", square as u64);
        words(rt, b" ");
        tell(
            rt,
            arrow(
                SHAPE,
                1,
                run,
                &marks,
                depths,
                records,
                square / 3,
                square % 3,
            ),
        );
    }
}

// The wet rows, and what the row slice holds afterwards.
fn tell_rows(rt: &impl Print, marks: &[u8], depths: &[u32], wet_depth: u32, rows: &mut [u64; 3]) {
    match wet_rows(SHAPE, marks, depths, wet_depth, rows) {
        Wet::Count(count) => numbered(rt, b"wet ", count),
        Wet::Refused(number) => numbered(rt, b"wet refused ", number as u64),
    };
    numbered(rt, b" rows ", rows[0]);
    numbered(rt, b" ", rows[1]);
    numbered(rt, b" ", rows[2]);
    words(rt, b"\n");
}

// The wet rows in a row slice that was 7 in each place.
fn tell_wet(rt: &impl Print, marks: &[u8], depths: &[u32], wet_depth: u32) {
    let mut rows = [7u64; 3];
    tell_rows(rt, marks, depths, wet_depth, &mut rows);
}

fn tell_all(rt: &impl Print, title: &[u8], run: Run, depths: &[u32], records: &[u32]) {
    words(rt, title);
    tell_arrows(rt, run, depths, records);
    let marks = MARKS;
    tell_wet(rt, &marks, depths, 0);
    tell_wet(rt, &marks, depths, 1);
    tell_wet(rt, &marks, depths, 7000);
    tell_wet(rt, &marks, depths, 100_000_000);
}

fn run_after(answer: Answer, before: Run) -> Run {
    match answer {
        Answer::Done(run) => run,
        Answer::Refused(_) => before,
    }
}

fn stepped(run: Run, depths: &mut [u32], lasts: &mut [u32], records: &mut [u32]) -> Run {
    let marks = MARKS;
    let beds = BEDS;
    let roughness = ROUGHNESS;
    let rates = RATES;
    let none: [u32; 0] = [];
    let answer = step(
        Walk::All,
        SHAPE,
        RULES,
        run,
        &marks,
        &beds,
        &roughness,
        &rates,
        &none,
        &none,
        depths,
        lasts,
        records,
    );
    run_after(answer, run)
}

fn with_a_mark_of_3() -> [u8; 9] {
    let mut marks = MARKS;
    marks[1] = 3;
    marks
}

fn too_deep() -> [u32; 9] {
    let mut depths = DEPTHS;
    depths[1] = 100_000_001;
    depths
}

// Refusal 1: no side, and a square off the grid.
fn arrow_refused_1(rt: &impl Print, run: Run, depths: &[u32], records: &[u32]) {
    let marks = MARKS;
    tell(rt, arrow(SHAPE, 0, run, &marks, depths, records, 0, 0));
    tell(rt, arrow(SHAPE, 1, run, &marks, depths, records, 3, 0));
}

fn arrow_refused_2(rt: &impl Print, run: Run, depths: &[u32], records: &[u32]) {
    let marks = with_a_mark_of_3();
    tell(rt, arrow(SHAPE, 1, run, &marks, depths, records, 0, 0));
}

fn arrow_refused_3(rt: &impl Print, run: Run, records: &[u32]) {
    let marks = MARKS;
    let depths = too_deep();
    tell(rt, arrow(SHAPE, 1, run, &marks, &depths, records, 0, 0));
}

// Refusals 6 and 10: a run without a length, and one that keeps nothing.
fn arrow_refused_6_and_10(rt: &impl Print, run: Run, depths: &[u32], records: &[u32]) {
    let marks = MARKS;
    let mut no_length = run;
    no_length.length = 0;
    tell(
        rt,
        arrow(SHAPE, 1, no_length, &marks, depths, records, 0, 0),
    );
    let mut none_kept = run;
    none_kept.kept = 0;
    tell(
        rt,
        arrow(SHAPE, 1, none_kept, &marks, depths, records, 0, 0),
    );
}

// Refusal 11: a forged record, which lasted 0.
fn arrow_refused_11(rt: &impl Print, run: Run, depths: &[u32]) {
    let marks = MARKS;
    let forged = [0u32; ROOM];
    tell(rt, arrow(SHAPE, 1, run, &marks, depths, &forged, 0, 0));
}

// The refusals of an arrow.
fn tell_arrow_refusals(rt: &impl Print, run: Run, depths: &[u32], records: &[u32]) {
    words(rt, b"arrow\n");
    arrow_refused_1(rt, run, depths, records);
    arrow_refused_2(rt, run, depths, records);
    arrow_refused_3(rt, run, records);
    arrow_refused_6_and_10(rt, run, depths, records);
    arrow_refused_11(rt, run, depths);
}

// The refusals of the wet rows, 1, 2, 3 and 5: each leaves the row slice as it was.
fn tell_wet_refusals(rt: &impl Print, depths: &[u32]) {
    words(rt, b"wet rows\n");
    let marks = MARKS;
    let no_marks: [u8; 0] = [];
    tell_wet(rt, &no_marks, depths, 1);
    let marked_3 = with_a_mark_of_3();
    tell_wet(rt, &marked_3, depths, 1);
    let deep = too_deep();
    tell_wet(rt, &marks, &deep, 1);
    tell_wet(rt, &marks, depths, 100_000_001);
}

fn main(rt: HostRuntime) {
    let marks = MARKS;
    let mut depths = DEPTHS;
    let mut lasts = [0u32; 9];
    let mut records = [0u32; ROOM];
    let mut run = run_after(
        fresh(SHAPE, RULES, &marks, &mut lasts, &records),
        fresh_run(RULES, 1),
    );
    tell_all(&rt, b"fresh\n", run, &depths, &records);
    run = stepped(run, &mut depths, &mut lasts, &mut records);
    tell_all(&rt, b"a step\n", run, &depths, &records);
    run = stepped(run, &mut depths, &mut lasts, &mut records);
    tell_all(&rt, b"another step\n", run, &depths, &records);
    tell_arrow_refusals(&rt, run, &depths, &records);
    tell_wet_refusals(&rt, &depths);
    run = run_after(
        take_back(SHAPE, run, &marks, &mut depths, &mut lasts, &records),
        run,
    );
    tell_all(&rt, b"a take-back\n", run, &depths, &records);
}

// A meadow of two rows and two columns by value, and the calls on it.
use crate::printing::{end_line, field, fields, run_fields, words};
use checks::fresh::{fresh, fresh_run};
use flood::run::{Ran, run_to};
use flood::step::step;
use grid::squares::Shape;
use grid::walks::Walk;
use ledger::runs::{Answer, Run};
use ledger::take_back::take_back;
use rule::rules::Rules;

// The numbers of the record room, of which the first `room` are lent. One record has 30.
pub(crate) const ROOM: usize = 92;

// All that the calls are lent, and what the last call gave: the refusal's number, 0 for none, and the steps of a run to an end.
#[derive(Clone, Copy)]
pub(crate) struct Meadow {
    pub marks: [u8; 4],
    pub beds: [u32; 4],
    pub roughness: [u32; 4],
    pub rates: [u32; 4],
    pub rain: [u32; 3],
    pub inflow: [u32; 5],
    pub depths: [u32; 4],
    pub lasts: [u32; 4],
    pub records: [u32; ROOM],
    pub room: usize,
    pub shape: Shape,
    pub rules: Rules,
    pub run: Run,
    pub refused: u32,
    pub steps: u64,
}

// Document 01's rules: edge slope 10,000 and edition 1.
pub(crate) fn rules_of(
    side: u64,
    tolerance: u64,
    shortest: u64,
    longest: u64,
    update: u64,
) -> Rules {
    Rules {
        square_side: side,
        tolerance: tolerance,
        shortest: shortest,
        longest: longest,
        update: update,
        edge: 10_000,
        edition: 1,
    }
}

// The sheet of document 01 with a closed row below it, and a room for `room` numbers, each 7.
pub(crate) fn sheet(room: usize) -> Meadow {
    let rules = rules_of(1, 100, 1000, 1000, 1000);
    Meadow {
        shape: Shape {
            rows: 2,
            columns: 2,
        },
        rules: rules,
        run: fresh_run(rules, 1),
        marks: [1, 1, 0, 0],
        beds: [0, 0, 0, 0],
        roughness: [100, 100, 0, 0],
        rates: [0, 0, 4_000_000_000, 7],
        rain: [0, 0, 0],
        inflow: [0, 0, 0, 0, 0],
        depths: [1000, 0, 5, 6],
        lasts: [0, 0, 7, 8],
        records: [7; ROOM],
        room: room,
        refused: 0,
        steps: 0,
    }
}

pub(crate) fn number_of(answer: Answer) -> u32 {
    match answer {
        Answer::Done(_) => 0,
        Answer::Refused(number) => number,
    }
}

pub(crate) fn run_after(answer: Answer, before: Run) -> Run {
    match answer {
        Answer::Done(run) => run,
        Answer::Refused(_) => before,
    }
}

// The calls with the first `room` numbers of the records lent; 0 where there are not so many.
fn fresh_in(
    shape: Shape,
    rules: Rules,
    marks: &[u8],
    lasts: &mut [u32],
    records: &[u32],
    room: usize,
) -> Answer {
    if records.len() < room {
        return Answer::Refused(0);
    }
    fresh(shape, rules, marks, lasts, &records[..room])
}

fn step_in(
    shape: Shape,
    rules: Rules,
    run: Run,
    marks: &[u8],
    beds: &[u32],
    roughness: &[u32],
    rates: &[u32],
    rain: &[u32],
    inflow: &[u32],
    depths: &mut [u32],
    lasts: &mut [u32],
    records: &mut [u32],
    room: usize,
) -> Answer {
    if records.len() < room {
        return Answer::Refused(0);
    }
    step(
        Walk::All,
        shape,
        rules,
        run,
        marks,
        beds,
        roughness,
        rates,
        rain,
        inflow,
        depths,
        lasts,
        &mut records[..room],
    )
}

fn run_in(
    shape: Shape,
    rules: Rules,
    run: Run,
    end: u64,
    marks: &[u8],
    beds: &[u32],
    roughness: &[u32],
    rates: &[u32],
    rain: &[u32],
    inflow: &[u32],
    depths: &mut [u32],
    lasts: &mut [u32],
    records: &mut [u32],
    room: usize,
) -> Ran {
    if records.len() < room {
        return Ran {
            refused: 0,
            steps: 0,
            run: run,
        };
    }
    run_to(
        Walk::All,
        shape,
        rules,
        run,
        end,
        marks,
        beds,
        roughness,
        rates,
        rain,
        inflow,
        depths,
        lasts,
        &mut records[..room],
    )
}

fn take_back_in(
    shape: Shape,
    run: Run,
    marks: &[u8],
    depths: &mut [u32],
    lasts: &mut [u32],
    records: &[u32],
    room: usize,
) -> Answer {
    if records.len() < room {
        return Answer::Refused(0);
    }
    take_back(shape, run, marks, depths, lasts, &records[..room])
}

// A fresh run.
pub(crate) fn freshened(m: Meadow) -> Meadow {
    let shape = m.shape;
    let rules = m.rules;
    let run = m.run;
    let marks = m.marks;
    let mut lasts = m.lasts;
    let records = m.records;
    let room = m.room;
    let answer = fresh_in(shape, rules, &marks, &mut lasts, &records, room);
    let after = run_after(answer, run);
    let mut new = m;
    new.run = after;
    new.lasts = lasts;
    new.refused = number_of(answer);
    new
}

// One step.
pub(crate) fn stepped(m: Meadow) -> Meadow {
    let shape = m.shape;
    let rules = m.rules;
    let run = m.run;
    let marks = m.marks;
    let beds = m.beds;
    let roughness = m.roughness;
    let rates = m.rates;
    let rain = m.rain;
    let inflow = m.inflow;
    let mut depths = m.depths;
    let mut lasts = m.lasts;
    let mut records = m.records;
    let room = m.room;
    let answer = step_in(
        shape,
        rules,
        run,
        &marks,
        &beds,
        &roughness,
        &rates,
        &rain,
        &inflow,
        &mut depths,
        &mut lasts,
        &mut records,
        room,
    );
    let after = run_after(answer, run);
    let mut new = m;
    new.run = after;
    new.depths = depths;
    new.lasts = lasts;
    new.records = records;
    new.refused = number_of(answer);
    new
}

// A run to an end.
pub(crate) fn ran(m: Meadow, end: u64) -> Meadow {
    let shape = m.shape;
    let rules = m.rules;
    let run = m.run;
    let marks = m.marks;
    let beds = m.beds;
    let roughness = m.roughness;
    let rates = m.rates;
    let rain = m.rain;
    let inflow = m.inflow;
    let mut depths = m.depths;
    let mut lasts = m.lasts;
    let mut records = m.records;
    let room = m.room;
    let made = run_in(
        shape,
        rules,
        run,
        end,
        &marks,
        &beds,
        &roughness,
        &rates,
        &rain,
        &inflow,
        &mut depths,
        &mut lasts,
        &mut records,
        room,
    );
    let after = made.run;
    let mut new = m;
    new.run = after;
    new.depths = depths;
    new.lasts = lasts;
    new.records = records;
    new.refused = made.refused;
    new.steps = made.steps;
    new
}

// A take-back.
pub(crate) fn taken_back(m: Meadow) -> Meadow {
    let shape = m.shape;
    let run = m.run;
    let marks = m.marks;
    let mut depths = m.depths;
    let mut lasts = m.lasts;
    let records = m.records;
    let room = m.room;
    let answer = take_back_in(shape, run, &marks, &mut depths, &mut lasts, &records, room);
    let after = run_after(answer, run);
    let mut new = m;
    new.run = after;
    new.depths = depths;
    new.lasts = lasts;
    new.refused = number_of(answer);
    new
}

// A line: what was called, the number given, the run, depths and last leavings.
pub(crate) fn show(rt: &impl Print, call: &[u8], m: Meadow) {
    words(rt, call);
    field(rt, b" refused", m.refused as u64);
    let run = m.run;
    run_fields(rt, run);
    let depths = m.depths;
    fields(rt, b" depths", depths);
    let lasts = m.lasts;
    fields(rt, b" lasts", lasts);
    end_line(rt);
}

// The same for a run to an end, with the steps made.
pub(crate) fn show_run(rt: &impl Print, m: Meadow) {
    field(rt, b"run steps", m.steps);
    show(rt, b"", m);
}

// One step: the checks, the length, the water added, the record filled in its slot, and the step settled. Where a refusal may still follow, the
// words of the slot are saved first and put back.
ghost use Rattle.std.specs.Prelude.{◌≡◌, true, [], ◌<◌, ◌≤◌};
ghost use Rattle.reckon.specs.Ranges.{most_length};
ghost use Rattle.trials.specs.Ring.{slot_after, slot_start, slots_in};
ghost use Rattle.grid.specs.Squares.{ShapeInRange};
ghost use Rattle.ledger.specs.Runs.{plan, world};
ghost use Rattle.ledger.specs.Record.{record_size, room_slots};
ghost use Rattle.settling.specs.Inner.Settle.{SettlesTo, next_record};
ghost use Rattle.checks.specs.Given.{given, ground};
ghost use Rattle.checks.specs.Refusals.{ChecksStep};
ghost use Rattle.adding.specs.Inner.Added.{rows_apart};
ghost use Rattle.moves.specs.Inner.Fill.{Fills};
ghost use Rattle.flood.specs.Step.{MakesStep, Passes, Steps};
ghost use Rattle.flood.specs.Inner.Step.{Decides, RoomsLent, SlotFilled, SlotSettled, filled_record};

use adding::added::{add_water, rows_apart};
use adding::way::Way;
use checks::refusals::check_step;
use grid::squares::{MOST_ALONG, MOST_SQUARES, Shape, squares_of};
use grid::walks::Walk;
use ledger::record::{MOST_RECORD, record_size};
use ledger::runs::{Answer, Run};
use moves::fill::fill;
use moves::length::step_length;
use moves::way::Span;
use reckon::copying::copy_into;
use reckon::ranges::LAST_CLOCK;
use rule::length::duration_for;
use rule::rules::Rules;
use settling::settle::{Settled, settle, surely_settles};

// What is decided before the squares are worked: the length that the run will hold, how long the step lasts, and whether it is sure that
// nothing refuses it any more.
#[derive(Clone, Copy)]
pub(crate) struct Decided {
    pub length: u64,
    pub duration: u64,
    pub sure: bool,
}

// Where the slot after the newest begins, in a record room of so many numbers.
fn next_place(shape: Shape, newest: usize, numbers: usize) -> usize
    requires { (ShapeInRange shape) × (newest < slots_in (record_size (plan shape [])) numbers) }
    ensures { result ≡ slot_start (record_size (plan shape [])) (slot_after (slots_in (record_size (plan shape [])) numbers) newest) }
{
    let size = record_size(shape);
    let slots = trials::slots_in(size, numbers);
    trials::slot_start(size, trials::slot_after(slots, newest))
}

// Fills a step's record in the slot after the newest; tells what the walk worked.
fn fill_slot(
    way: Way,
    run: Run,
    duration: u64,
    marks: &[u8],
    beds: &[u32],
    roughness: &[u32],
    rates: &[u32],
    depths: &[u32],
    lasts: &[u32],
    added: &[u32],
    records: &mut [u32],
    left: &mut [u32],
    worked: &mut [u64],
    senders: &mut [u64],
)
    requires fills { Fills (plan way.shape marks.now) (ground way.rules beds.now roughness.now rates.now) depths.now lasts.now added.now run.clock duration (next_record (plan way.shape marks.now) (world depths.now lasts.now records.old run)) }
    requires newest_bound { (run.newest < room_slots (plan way.shape marks.now) records.old) × (run.length ≤ most_length) × (RoomsLent way.shape left.old worked.old senders.old added.now) }
    ensures { SlotFilled way.walk (plan way.shape marks.now) (ground way.rules beds.now roughness.now rates.now) (world depths.now lasts.now records.old run) added.now duration records.new left.new worked.new senders.new }
{
    let shape = way.shape;
    let at = next_place(shape, run.newest, records.len());
    let stop = at + record_size(shape);
    let span = Span {
        held: run.length,
        start: run.clock,
        duration: duration,
    };
    fill(
        way,
        span,
        marks,
        beds,
        roughness,
        rates,
        depths,
        lasts,
        added,
        &mut records[at..stop],
        left,
        worked,
        senders,
    );
}

// Fills the record in its slot and settles the step by it. A refused step leaves its record in the slot, and all else as it was.
fn settle_in_slot(
    way: Way,
    decided: Decided,
    run: Run,
    marks: &[u8],
    beds: &[u32],
    roughness: &[u32],
    rates: &[u32],
    depths: &mut [u32],
    lasts: &mut [u32],
    records: &mut [u32],
    left: &mut [u32],
    worked: &mut [u64],
    senders: &mut [u64],
    room: &mut [u32],
) -> Settled
    requires { (Decides (plan way.shape marks.now) (ground way.rules beds.now roughness.now rates.now) (world depths.old lasts.old records.old run) room.old decided) × (RoomsLent way.shape left.old worked.old senders.old room.old) }
    ensures { SlotSettled (plan way.shape marks.now) (filled_record (plan way.shape marks.now) (ground way.rules beds.now roughness.now rates.now) (world depths.old lasts.old records.old run) room.old decided.duration) decided.length (world depths.old lasts.old records.old run) result.refused (world depths.new lasts.new records.new result.run) }
{
    fill_slot(
        way,
        run,
        decided.duration,
        marks,
        beds,
        roughness,
        rates,
        depths,
        lasts,
        room,
        records,
        left,
        worked,
        senders,
    );
    settle(
        way.shape,
        decided.sure,
        marks,
        left,
        worked,
        senders,
        decided.length,
        run,
        depths,
        lasts,
        records,
        room,
    )
}

// The same with the record room as it was after a refusal: the words of the slot are saved, and put back. Their room is large, so that it is
// made only where a refusal may follow.
fn settle_or_put_back(
    way: Way,
    decided: Decided,
    run: Run,
    marks: &[u8],
    beds: &[u32],
    roughness: &[u32],
    rates: &[u32],
    depths: &mut [u32],
    lasts: &mut [u32],
    records: &mut [u32],
    left: &mut [u32],
    worked: &mut [u64],
    senders: &mut [u64],
    room: &mut [u32],
) -> Settled
    requires { (Decides (plan way.shape marks.now) (ground way.rules beds.now roughness.now rates.now) (world depths.old lasts.old records.old run) room.old decided) × (RoomsLent way.shape left.old worked.old senders.old room.old) }
    ensures { SettlesTo (plan way.shape marks.now) (filled_record (plan way.shape marks.now) (ground way.rules beds.now roughness.now rates.now) (world depths.old lasts.old records.old run) room.old decided.duration) decided.length (world depths.old lasts.old records.old run) result.refused (world depths.new lasts.new records.new result.run) }
{
    let shape = way.shape;
    let at = next_place(shape, run.newest, records.len());
    let size = record_size(shape);
    let stop = at + size;
    let mut saved = [0u32; MOST_RECORD];
    copy_into(&records[at..stop], &mut saved, 0);
    let settled = settle_in_slot(
        way, decided, run, marks, beds, roughness, rates, depths, lasts, records, left, worked,
        senders, room,
    );
    let refused = settled.refused;
    if refused == 0 {
        return settled;
    }
    copy_into(&saved[..size], records, at);
    settled
}

// The inner step, for calls that have made the checks and lend their working rooms (`left`, `worked`, `senders`, `room`), once for all their
// steps: refused by 7, 8, 9 or 15, or made.
pub fn step_on(
    way: Way,
    run: Run,
    marks: &[u8],
    beds: &[u32],
    roughness: &[u32],
    rates: &[u32],
    rain: &[u32],
    inflow: &[u32],
    depths: &mut [u32],
    lasts: &mut [u32],
    records: &mut [u32],
    left: &mut [u32],
    worked: &mut [u64],
    senders: &mut [u64],
    room: &mut [u32],
) -> Settled
    requires passes { Passes (plan way.shape marks.now) (given (ground way.rules beds.now roughness.now rates.now) rain.now inflow.now) (world depths.old lasts.old records.old run) }
    requires rooms_lent { (RoomsLent way.shape left.old worked.old senders.old room.old) × (way.apart ≡ rows_apart inflow.now) }
    ensures { MakesStep (plan way.shape marks.now) (given (ground way.rules beds.now roughness.now rates.now) rain.now inflow.now) (world depths.old lasts.old records.old run) result.refused (world depths.new lasts.new records.new result.run) }
{
    let clock = run.clock;
    let length = step_length(way, marks, beds, roughness, depths, clock, run.length);
    let duration = duration_for(way.rules, clock, length);
    let end = clock + duration;
    if LAST_CLOCK < end {
        return Settled {
            refused: 7,
            run: run,
        };
    }
    if !add_water(way, marks, rain, inflow, clock, end, room) {
        return Settled {
            refused: 8,
            run: run,
        };
    }
    let sure = surely_settles(run, depths, room);
    let decided = Decided {
        length: length,
        duration: duration,
        sure: sure,
    };
    if sure {
        return settle_in_slot(
            way, decided, run, marks, beds, roughness, rates, depths, lasts, records, left, worked,
            senders, room,
        );
    }
    settle_or_put_back(
        way, decided, run, marks, beds, roughness, rates, depths, lasts, records, left, worked,
        senders, room,
    )
}

// The first number of 1 to 6 that applies to a step, 0 for none; where they are known to pass, nothing is looked at.
fn first_number(
    checked: bool,
    shape: Shape,
    rules: Rules,
    run: Run,
    marks: &[u8],
    beds: &[u32],
    roughness: &[u32],
    rates: &[u32],
    rain: &[u32],
    inflow: &[u32],
    depths: &[u32],
    lasts: &[u32],
    numbers: usize,
) -> u32
    requires { checked ≡ true → ChecksStep (plan shape marks.now) (given (ground rules beds.now roughness.now rates.now) rain.now inflow.now) depths.now lasts.now numbers run 0 }
    ensures { ChecksStep (plan shape marks.now) (given (ground rules beds.now roughness.now rates.now) rain.now inflow.now) depths.now lasts.now numbers run result }
{
    if checked {
        return 0;
    }
    check_step(
        shape, rules, run, marks, beds, roughness, rates, rain, inflow, depths, lasts, numbers,
    )
}

// One step in working rooms that are lent, or a refusal with everything as it was. A caller who knows that the checks 1 to 6 pass says so, and they
// are not made again.
pub fn step_checked(
    checked: bool,
    way: Way,
    run: Run,
    marks: &[u8],
    beds: &[u32],
    roughness: &[u32],
    rates: &[u32],
    rain: &[u32],
    inflow: &[u32],
    depths: &mut [u32],
    lasts: &mut [u32],
    records: &mut [u32],
    left: &mut [u32],
    worked: &mut [u64],
    senders: &mut [u64],
    room: &mut [u32],
) -> Answer
    requires rooms_lent { (RoomsLent way.shape left.old worked.old senders.old room.old) × (way.apart ≡ rows_apart inflow.now) }
    requires passes { checked ≡ true → Passes (plan way.shape marks.now) (given (ground way.rules beds.now roughness.now rates.now) rain.now inflow.now) (world depths.old lasts.old records.old run) }
    ensures { Steps (plan way.shape marks.now) (given (ground way.rules beds.now roughness.now rates.now) rain.now inflow.now) (world depths.old lasts.old records.old run) result depths.new lasts.new records.new }
{
    let number = first_number(
        checked,
        way.shape,
        way.rules,
        run,
        marks,
        beds,
        roughness,
        rates,
        rain,
        inflow,
        depths,
        lasts,
        records.len(),
    );
    if number != 0 {
        return Answer::Refused(number);
    }
    let made = step_on(
        way, run, marks, beds, roughness, rates, rain, inflow, depths, lasts, records, left,
        worked, senders, room,
    );
    let refused = made.refused;
    let after = made.run;
    if refused != 0 {
        return Answer::Refused(refused);
    }
    Answer::Done(after)
}

// One step by either walk, or a refusal with everything as it was.
pub fn step(
    walk: Walk,
    shape: Shape,
    rules: Rules,
    run: Run,
    marks: &[u8],
    beds: &[u32],
    roughness: &[u32],
    rates: &[u32],
    rain: &[u32],
    inflow: &[u32],
    depths: &mut [u32],
    lasts: &mut [u32],
    records: &mut [u32],
) -> Answer
    ensures { Steps (plan shape marks.now) (given (ground rules beds.now roughness.now rates.now) rain.now inflow.now) (world depths.old lasts.old records.old run) result depths.new lasts.new records.new }
{
    let number = check_step(
        shape,
        rules,
        run,
        marks,
        beds,
        roughness,
        rates,
        rain,
        inflow,
        depths,
        lasts,
        records.len(),
    );
    if number != 0 {
        return Answer::Refused(number);
    }
    let squares = squares_of(shape);
    let rows = shape.rows;
    let way = Way {
        walk: walk,
        shape: shape,
        rules: rules,
        apart: rows_apart(inflow),
    };
    let mut left = [0u32; MOST_SQUARES];
    let mut worked = [0u64; MOST_ALONG];
    let mut senders = [0u64; MOST_ALONG];
    let mut room = [0u32; MOST_SQUARES];
    step_checked(
        true,
        way,
        run,
        marks,
        beds,
        roughness,
        rates,
        rain,
        inflow,
        depths,
        lasts,
        records,
        &mut left[..squares],
        &mut worked[..rows],
        &mut senders[..rows],
        &mut room[..squares],
    )
}

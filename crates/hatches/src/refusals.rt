// When a line of a log is refused before its steps: 12 first, then what is lent and the line's own.
ghost use Rattle.std.specs.Prelude.{◌≡◌, true, ℕ, ◌+◌, ◌*◌, ◌%◌, ◌≤◌, eqb, length};
ghost use Rattle.reckon.specs.Tables.{inflow_kind};
ghost use Rattle.grid.specs.Squares.{ShapeInRange, squares};
ghost use Rattle.ledger.specs.Runs.{plan};
ghost use Rattle.hatches.specs.Log.{draw_fine, kept_fine, lent_fine, line_fine, standing_fine};
ghost use Rattle.hatches.specs.Inner.Judged.{EntryJudged, HatchDrawJudged, HatchLineJudged, TableFits};
ghost use Rattle.ledger.specs.Runs as Runs;
ghost use Rattle.hatches.specs.declared.lines.Entry.TheVariants as kinds;

use crate::lines::Entry;
use crate::log::{Hatches, Log, MOST_HATCHES, is_named};
use crate::rates::count_named;
use grid::marks::is_closed;
use grid::squares::{Shape, shape_fine, square_at, squares_of};
use ledger::lent::one_each;
use ledger::record::record_size;
use programs::limits::PROGRAM_SQUARES;
use reckon::ranges::{LAST_CLOCK, MOST_LITRES};
use reckon::tables::{INFLOW_ROOM, INFLOW_WIDTH};
use rule::rules::Rules;

// Whether a clock is a multiple of U.
fn is_multiple(clock: u64, update: u64) -> bool
    ensures { result ≡ eqb (clock % update) 0 }
{
    if update == 0 {
        return clock == 0;
    }
    clock % update == 0
}

// 12 for a hatch's line: at the opening, its number is 1 to 9 and not named yet.
pub fn hatch_line_fine(log: Log, number: u32) -> bool
    ensures { HatchLineJudged log number result }
{
    if !log.opening {
        return false;
    }
    if number < 1 {
        return false;
    }
    if 9 < number {
        return false;
    }
    !is_named(log.hatches, number)
}

// 12 for a rate's line: its hatch is named, and its clock a multiple of U, in range and not below the run's.
fn rate_line_fine(log: Log, clock: u32, number: u32, rules: Rules) -> bool
    ensures { (litres : ℕ) → result ≡ line_fine rules log (kinds.Rate clock number litres) }
{
    if !is_named(log.hatches, number) {
        return false;
    }
    let end = clock as u64;
    if !is_multiple(end, rules.update) {
        return false;
    }
    if LAST_CLOCK < end {
        return false;
    }
    let run = log.run;
    run.clock <= end
}

// 12.
fn line_fine(entry: Entry, log: Log, rules: Rules) -> bool
    ensures { result ≡ line_fine rules log entry }
{
    match entry {
        Entry::Hatch(number, row, column) => hatch_line_fine(log, number),
        Entry::Rate(clock, number, litres) => rate_line_fine(log, clock, number, rules),
        Entry::Back(count) => true,
    }
}

// 1: the sizes of what is lent.
fn lent_fine(shape: Shape, marks: &[u8], depths: &[u32], records: &[u32], began: &[u32]) -> bool
    ensures { result ≡ lent_fine (plan shape marks.now) depths.now records.now began.now }
{
    if !shape_fine(shape) {
        return false;
    }
    if PROGRAM_SQUARES < squares_of(shape) {
        return false;
    }
    if !one_each(shape, marks.len()) {
        return false;
    }
    if !one_each(shape, depths.len()) {
        return false;
    }
    let slots = trials::slots_in(record_size(shape), records.len());
    slots <= trials::slots_in(MOST_HATCHES, began.len())
}

// Whether so many numbers, a row for each hatch and so many numbers more fit the inflow table.
pub fn table_fits(numbers: usize, hatches: Hatches, more: usize) -> bool
    requires { more ≤ inflow_kind.width }
    ensures { TableFits numbers hatches more result }
{
    if INFLOW_ROOM < numbers {
        return false;
    }
    numbers + count_named(hatches) * INFLOW_WIDTH + more <= INFLOW_ROOM
}

// 4 for a hatch's line: its square is on the grid and not closed, and one row more fits the table.
pub fn hatch_draw_fine(
    log: Log,
    row: u32,
    column: u32,
    shape: Shape,
    marks: &[u8],
    inflow: &[u32],
) -> bool
    requires { (ShapeInRange shape) × (length marks.now ≡ squares shape) }
    ensures { HatchDrawJudged (plan shape marks.now) inflow.now log row column result }
{
    let at_row = row as usize;
    let at_column = column as usize;
    if shape.rows <= at_row {
        return false;
    }
    if shape.columns <= at_column {
        return false;
    }
    if is_closed(marks, square_at(shape, at_row, at_column)) {
        return false;
    }
    table_fits(inflow.len(), log.hatches, INFLOW_WIDTH)
}

// 4 for a rate's line: litres in range, and the table fits.
fn rate_draw_fine(log: Log, litres: u32, inflow: &[u32]) -> bool
    ensures { (p : Runs.Plan) (clock number : ℕ) → result ≡ draw_fine p inflow.now log (kinds.Rate clock number litres) }
{
    if MOST_LITRES < litres as u64 {
        return false;
    }
    table_fits(inflow.len(), log.hatches, 0)
}

// 4.
fn draw_fine(entry: Entry, log: Log, shape: Shape, marks: &[u8], inflow: &[u32]) -> bool
    requires { (ShapeInRange shape) × (length marks.now ≡ squares shape) }
    ensures { result ≡ draw_fine (plan shape marks.now) inflow.now log entry }
{
    match entry {
        Entry::Hatch(number, row, column) => hatch_draw_fine(
            log, row, column, shape, marks, inflow,
        ),
        Entry::Rate(clock, number, litres) => rate_draw_fine(log, litres, inflow),
        Entry::Back(count) => true,
    }
}

// 6: as many steps stand as are kept, and each took a ms or more.
pub fn standing_fine(log: Log) -> bool
    ensures { result ≡ standing_fine log }
{
    let run = log.run;
    if log.steps < run.kept as u64 {
        return false;
    }
    log.steps <= run.clock
}

// 10.
fn kept_fine(entry: Entry, log: Log) -> bool
    ensures { result ≡ kept_fine log entry }
{
    let run = log.run;
    match entry {
        Entry::Hatch(number, row, column) => true,
        Entry::Rate(clock, number, litres) => true,
        Entry::Back(count) => count as usize <= run.kept,
    }
}

// The number that what a line says is refused with before its steps, 0 for none.
fn said_number(
    said: Entry,
    log: Log,
    shape: Shape,
    rules: Rules,
    marks: &[u8],
    inflow: &[u32],
    depths: &[u32],
    records: &[u32],
    began: &[u32],
) -> u32
    ensures { EntryJudged (plan shape marks.now) rules inflow.now depths.now records.now began.now log (Some said) result }
{
    if !line_fine(said, log, rules) {
        return 12;
    }
    if !lent_fine(shape, marks, depths, records, began) {
        return 1;
    }
    if !draw_fine(said, log, shape, marks, inflow) {
        return 4;
    }
    if !standing_fine(log) {
        return 6;
    }
    if !kept_fine(said, log) {
        return 10;
    }
    0
}

// The number that a line is refused with before its steps, 0 for none: 12 for one that cannot be read.
pub fn entry_number(
    entry: Option<Entry>,
    log: Log,
    shape: Shape,
    rules: Rules,
    marks: &[u8],
    inflow: &[u32],
    depths: &[u32],
    records: &[u32],
    began: &[u32],
) -> u32
    ensures { EntryJudged (plan shape marks.now) rules inflow.now depths.now records.now began.now log entry result }
{
    let Some(said) = entry else {
        return 12;
    };
    said_number(
        said, log, shape, rules, marks, inflow, depths, records, began,
    )
}

// What the lines of a trial do: a hatch named, a rate drawn, one step made, steps taken back.
ghost use Rattle.std.specs.Prelude.{◌≡◌, true, List, ℕ, ◌+◌, ◌-◌, ◌<◌, ◌≤◌, length, set};
ghost use Rattle.reckon.specs.Tests.{refusal};
ghost use Rattle.trials.specs.Ring.{slot_after, slots_in};
ghost use Rattle.grid.specs.Squares.{ShapeInRange, squares};
ghost use Rattle.ledger.specs.Runs.{plan};
ghost use Rattle.checks.specs.Given.{given, ground};
ghost use Rattle.adding.specs.Account.{tables_give};
ghost use Rattle.adding.specs.Inner.Added.{Between, rows_apart, tables};
ghost use Rattle.flood.specs.Inner.Step.{RoomsLent};
ghost use Rattle.hatches.specs.Log.{evening, log_with, most_hatches, rates_kept};
ghost use Rattle.stands.specs.Laying.{most_given};
ghost use Rattle.trying.specs.Given.{account_with, most_slots};
ghost use Rattle.trying.specs.Lines.{Draws, GoesBack, MakesOne, Names, TrialLent, given_back, log_at, tried, try_refusals};
ghost use Rattle.trying.specs.Inner.Passing.{StepPasses};

use crate::given::{Account, account_back, account_with};
use account::tables_give;
use adding::added::rows_apart;
use adding::way::Way;
use evenings::taking::{back_line, further, name_hatch};
use flood::step::step_checked;
use grid::squares::Shape;
use grid::walks::Walk;
use hatches::log::{Log, is_named};
use hatches::rates::{fill_table, keep_made, slot_ago};
use hatches::refusals::{hatch_draw_fine, hatch_line_fine, standing_fine, table_fits};
use ledger::record::record_size;
use ledger::runs::{Answer, Run};
use reckon::ranges::MOST_LITRES;
use reckon::tables::INFLOW_ROOM;
use rule::rules::Rules;
use stands::saved::MOST_GIVEN;

// What came of a line: the number that it is refused with, 0 for none, the log and the account after it.
#[derive(Clone, Copy)]
pub struct Tried {
    pub number: u32,
    pub log: Log,
    pub account: Account,
}

// A log at other rates; hatches may be named as long as before.
fn log_at(log: Log, litres: [u32; 9]) -> Log
    ensures { result ≡ log_at log litres }
{
    let run = log.run;
    let hatches = log.hatches;
    Log {
        run: run,
        steps: log.steps,
        opening: log.opening,
        hatches: hatches,
        litres: litres,
    }
}

// A refusal: nothing has changed.
fn refused(log: Log, account: Account, number: u32) -> Tried
    ensures { result ≡ tried number log account }
{
    Tried {
        number: number,
        log: log,
        account: account,
    }
}

// `hatch` number row column.
pub fn name(
    log: Log,
    account: Account,
    number: u32,
    row: u32,
    column: u32,
    shape: Shape,
    rules: Rules,
    marks: &[u8],
    inflow: &[u32],
) -> Tried
    requires { (ShapeInRange shape) × (length marks.now ≡ squares shape) }
    ensures { Names (plan shape marks.now) rules inflow.now log account number row column result }
{
    if !hatch_line_fine(log, number) {
        return refused(log, account, 12);
    }
    if !hatch_draw_fine(log, row, column, shape, marks, inflow) {
        return refused(log, account, 4);
    }
    Tried {
        number: 0,
        log: name_hatch(log, number, row, column),
        account: account,
    }
}

// Rates with one of them written.
fn rates_with(litres: [u32; 9], number: u32, rate: u32) -> [u32; 9]
    requires { (1 ≤ number) × (number ≤ most_hatches) }
    ensures { result ≡ set litres (number - 1) rate }
{
    let place = number as usize - 1;
    let mut next = litres;
    next[place] = rate;
    next
}

// `draw` number litres.
pub fn draw(log: Log, account: Account, number: u32, litres: u32) -> Tried
    ensures { Draws log account number litres result }
{
    if !is_named(log.hatches, number) {
        return refused(log, account, 12);
    }
    if MOST_LITRES < litres as u64 {
        return refused(log, account, 4);
    }
    let before = log.litres;
    let after = rates_with(before, number, litres);
    Tried {
        number: 0,
        log: log_at(log, after),
        account: account,
    }
}

// The number that a step is refused with before it is tried, 0 for none: the table with the hatches, and what the log and the account say.
fn try_number(log: Log, account: Account, inflow: usize) -> u32
    ensures { (table : List ℕ) → length table ≡ inflow → result ≡ refusal (try_refusals table log account) }
{
    if !table_fits(inflow, log.hatches, 0) {
        return 4;
    }
    if !standing_fine(log) {
        return 6;
    }
    if MOST_GIVEN < account.given {
        return 6;
    }
    0
}

// A step that was made: its rates and what it was given are kept beside its record.
fn keep_step(
    log: Log,
    account: Account,
    run: Run,
    slots: usize,
    more: u64,
    began: &mut [u32],
) -> Tried
    requires newest_lt_slots { (log.run.newest < slots) × (slots ≤ most_slots) × (slots ≤ slots_in most_hatches (length began.old)) }
    requires steps_bound { (log.steps + 1 < 18_446_744_073_709_551_616) × (account.given + more < 18_446_744_073_709_551_616) }
    ensures { (result ≡ tried 0 (log_with log run (log.steps + 1) log.litres) (account_with account (slot_after slots log.run.newest) more)) × (began.new ≡ rates_kept slots 1 log.run.newest log.litres began.old) }
{
    let before = log.run;
    let litres = log.litres;
    keep_made(&litres, slots, before.newest, 1, began);
    let slot = trials::slot_after(slots, before.newest);
    Tried {
        number: 0,
        log: further(log, run, log.steps + 1, litres),
        account: account_with(account, slot, more),
    }
}

// A step that was made, with what its table gave.
fn made_step(
    log: Log,
    account: Account,
    run: Run,
    way: Way,
    marks: &[u8],
    rain: &[u32],
    table: &[u32],
    slots: usize,
    began: &mut [u32],
) -> Tried
    requires newest_lt_slots { (log.run.newest < slots) × (slots ≤ most_slots) × (slots ≤ slots_in most_hatches (length began.old)) }
    requires steps_bound { (log.steps + 1 < 18_446_744_073_709_551_616) × (account.given ≤ most_given) }
    requires apart_value { way.apart ≡ rows_apart table.now }
    requires between { Between (plan way.shape marks.now) (tables way.rules rain.now table.now) log.run.clock run.clock }
    ensures { (result ≡ tried 0 (log_with log run (log.steps + 1) log.litres) (account_with account (slot_after slots log.run.newest) (tables_give (plan way.shape marks.now) (tables way.rules rain.now table.now) log.run.clock run.clock))) × (began.new ≡ rates_kept slots 1 log.run.newest log.litres began.old) }
{
    let before = log.run;
    let more = tables_give(way, marks, rain, table, before.clock, run.clock);
    keep_step(log, account, run, slots, more, began)
}

// One step at the rates that the hatches run at, in working rooms that are lent. A caller who knows that the checks 1 to 6 pass says so.
pub fn step_once(
    checked: bool,
    log: Log,
    account: Account,
    shape: Shape,
    rules: Rules,
    marks: &[u8],
    beds: &[u32],
    roughness: &[u32],
    rates: &[u32],
    rain: &[u32],
    inflow: &[u32],
    depths: &mut [u32],
    lasts: &mut [u32],
    records: &mut [u32],
    began: &mut [u32],
    left: &mut [u32],
    worked: &mut [u64],
    senders: &mut [u64],
    room: &mut [u32],
) -> Tried
    requires trial_lent { (TrialLent (plan shape marks.now) records.old began.old) × (RoomsLent shape left.old worked.old senders.old room.old) }
    requires step_passes { checked ≡ true → StepPasses (plan shape marks.now) (given (ground rules beds.now roughness.now rates.now) rain.now inflow.now) (evening depths.old lasts.old records.old began.old log) account }
    ensures { MakesOne (plan shape marks.now) (given (ground rules beds.now roughness.now rates.now) rain.now inflow.now) (evening depths.old lasts.old records.old began.old log) account result.number (evening depths.new lasts.new records.new began.new result.log) result.account }
{
    let number = try_number(log, account, inflow.len());
    if number != 0 {
        return refused(log, account, number);
    }
    let mut table = [0u32; INFLOW_ROOM];
    let litres = log.litres;
    let length = fill_table(inflow, log.hatches, litres, &mut table);
    let way = Way {
        walk: Walk::Wet,
        shape: shape,
        rules: rules,
        apart: rows_apart(&table[..length]),
    };
    let slots = trials::slots_in(record_size(shape), records.len());
    let before = log.run;
    let answer = step_checked(
        checked,
        way,
        before,
        marks,
        beds,
        roughness,
        rates,
        rain,
        &table[..length],
        depths,
        lasts,
        records,
        left,
        worked,
        senders,
        room,
    );
    match answer {
        Answer::Refused(number) => refused(log, account, number),
        Answer::Done(run) => made_step(
            log,
            account,
            run,
            way,
            marks,
            rain,
            &table[..length],
            slots,
            began,
        ),
    }
}

// The account after so many take-backs.
fn given_back(account: Account, steps: u64, slots: usize, newest: usize) -> Account
    requires { (0 < steps → newest < slots) × (slots ≤ most_slots) }
    ensures { result ≡ given_back account slots newest steps }
{
    if steps == 0 {
        return account;
    }
    account_back(account, slot_ago(slots, newest, steps - 1))
}

// `back` count.
pub fn back(
    log: Log,
    account: Account,
    count: u32,
    shape: Shape,
    marks: &[u8],
    depths: &mut [u32],
    lasts: &mut [u32],
    records: &[u32],
    began: &[u32],
) -> Tried
    requires { TrialLent (plan shape marks.now) records.now began.now }
    ensures { GoesBack (plan shape marks.now) (evening depths.old lasts.old records.now began.now log) account count result.number (evening depths.new lasts.new records.now began.now result.log) result.account }
{
    if !standing_fine(log) {
        return refused(log, account, 6);
    }
    let before = log.run;
    if before.kept < count as usize {
        return refused(log, account, 10);
    }
    let came = back_line(log, count, shape, marks, depths, lasts, records, began);
    let after = came.log;
    let steps = log.steps - after.steps;
    let slots = trials::slots_in(record_size(shape), records.len());
    Tried {
        number: came.number,
        log: after,
        account: given_back(account, steps, slots, before.newest),
    }
}

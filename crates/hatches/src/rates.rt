// The hatches' rows of a step's inflow table, and the ring of rates beside the ring of records.
ghost use Rattle.std.specs.Prelude.{◌≡◌, List, ℕ, ◌+◌, ◌*◌, ◌<◌, ◌≤◌, length};
ghost use Rattle.reckon.specs.Tables.{inflow_kind};
ghost use Rattle.trials.specs.Ring.{slot_ago, slots_in};
ghost use Rattle.trials.specs.Room.{record_in, stored_in};
ghost use Rattle.text.specs.Writing.{Wrote};
ghost use Rattle.hatches.specs.Log.{hatch_row, hatch_rows, most_hatches, rates_kept};
ghost use Rattle.hatches.specs.Inner.Rates.{RatesRestored, RatesStored, TableFilled};

use crate::log::{Hatches, Log, MOST_HATCHES};
use reckon::copying::copy_into;
use reckon::ranges::LAST_CLOCK;
use reckon::tables::{INFLOW_ROOM, INFLOW_WIDTH};

// How many hatches are named.
pub(crate) fn count_named(hatches: Hatches) -> usize
    ensures { ((litres : List ℕ) → length (hatch_rows hatches litres) ≡ result * inflow_kind.width) × (result ≤ most_hatches) }
{
    hatches.named.iter().filter(|named| **named).count()
}

// One hatch's row into a table at a place, none where it is not named; the place after it.
fn put_row(hatches: Hatches, litres: [u32; 9], hatch: usize, table: &mut [u32], at: usize) -> usize
    requires { (hatch < most_hatches) × (at + length (hatch_row hatches litres hatch) ≤ length table.old) }
    ensures { Wrote (hatch_row hatches litres hatch) at table.old table.new result }
{
    let named = hatches.named;
    if !named[hatch] {
        return at;
    }
    let rows = hatches.rows;
    let columns = hatches.columns;
    let row = [
        rows[hatch],
        columns[hatch],
        0,
        LAST_CLOCK as u32,
        litres[hatch],
    ];
    copy_into(&row, table, at);
    at + INFLOW_WIDTH
}

// All their rows into a table at a place; the place after them.
fn put_rows(hatches: Hatches, litres: [u32; 9], table: &mut [u32], at: usize) -> usize
    requires { at + length (hatch_rows hatches litres) ≤ length table.old }
    ensures { Wrote (hatch_rows hatches litres) at table.old table.new result }
{
    let mut next = at;
    for hatch in 0..MOST_HATCHES {
        next = put_row(hatches, litres, hatch, table, next);
    }
    next
}

// A step's inflow table: the sheet's rows, and a row for each hatch; its length.
pub fn fill_table(
    inflow: &[u32],
    hatches: Hatches,
    litres: [u32; 9],
    table: &mut [u32; INFLOW_ROOM],
) -> usize
    requires { length inflow.now + length (hatch_rows hatches litres) ≤ length table.old }
    ensures { TableFilled inflow.now hatches litres table.old table.new result }
{
    copy_into(inflow, table, 0);
    put_rows(hatches, litres, table, inflow.len())
}

// Rates into a slot of the room beside the records.
fn keep_one(litres: &[u32; 9], slot: usize, began: &mut [u32])
    requires { slot < slots_in most_hatches (length began.old) }
    ensures { began.new ≡ stored_in most_hatches began.old slot litres.now }
{
    let at = slot * MOST_HATCHES;
    copy_into(litres, began, at);
}

// The same rates for so many steps, each in the slot of its record.
fn keep_rates(litres: &[u32; 9], slots: usize, newest: usize, steps: u64, began: &mut [u32])
    requires { (length litres.now ≡ most_hatches) × (newest < slots) × (slots ≤ slots_in most_hatches (length began.old)) }
    ensures { began.new ≡ rates_kept slots steps newest litres.now began.old }
{
    let mut slot = newest;
    for _ in 0..steps {
        slot = trials::slot_after(slots, slot);
        keep_one(litres, slot, began);
    }
}

// The same rates for so many steps that a run made, none where it made none.
pub fn keep_made(litres: &[u32; 9], slots: usize, newest: usize, steps: u64, began: &mut [u32])
    requires { (length litres.now ≡ most_hatches) × ((0 < steps) → (newest < slots)) × (slots ≤ slots_in most_hatches (length began.old)) }
    ensures { RatesStored slots steps newest litres.now began.old began.new }
{
    if steps == 0 {
        return;
    }
    keep_rates(litres, slots, newest, steps, began);
}

// The slot so many places before one.
pub fn slot_ago(slots: usize, newest: usize, places: u64) -> usize
    requires { newest < slots }
    ensures { result ≡ slot_ago slots newest places }
{
    let mut slot = newest;
    for _ in 0..places {
        slot = trials::slot_before(slots, slot);
    }
    slot
}

// The rates in a slot.
fn rates_in(began: &[u32], slot: usize) -> [u32; 9]
    requires { slot < slots_in most_hatches (length began.now) }
    ensures { result ≡ record_in most_hatches began.now slot }
{
    let at = slot * MOST_HATCHES;
    let mut litres = [0u32; 9];
    let end = at + MOST_HATCHES;
    copy_into(&began[at..end], &mut litres, 0);
    litres
}

// The rates after so many take-backs: those of the earliest step taken back.
pub fn rates_back(log: Log, steps: u64, slots: usize, began: &[u32]) -> [u32; 9]
    requires { ((0 < steps) → (log.run.newest < slots)) × (slots ≤ slots_in most_hatches (length began.now)) }
    ensures { RatesRestored slots began.now log steps result }
{
    if steps == 0 {
        return log.litres;
    }
    let run = log.run;
    rates_in(began, slot_ago(slots, run.newest, steps - 1))
}

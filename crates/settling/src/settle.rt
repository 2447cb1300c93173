// A step whose record stands in its slot, settled: refused by 8, 9 or 15, or written to depths, last leaving and run. Nothing lent but the
// working room is written before all three are decided.
ghost use Rattle.std.specs.Prelude.{◌≡◌, true, length};
ghost use Rattle.reckon.specs.Tests.{all_below};
ghost use Rattle.grid.specs.Squares.{ShapeInRange, squares};
ghost use Rattle.ledger.specs.Runs.{plan, world};
ghost use Rattle.settling.specs.Inner.Settle.{NoneBeyond, RoomAdded, Settles, SettlesTo, SurelyJudged, WalkTells, fits_at, joined_all, late_number, next_record, settle_number};

use crate::reach::{all_fit, write_water};
use crate::spread::spread;
use grid::squares::{MOST_SQUARES, Shape};
use ledger::record::{lasted, record_size};
use ledger::runs::Run;
use reckon::ranges::{MOST_DEPTH, MOST_OUTFLOW, MOST_SOAKED};

// The refusal's number, 0 for none, and the run afterwards.
#[derive(Clone, Copy)]
pub struct Settled {
    pub refused: u32,
    pub run: Run,
}

// All that the squares of a grid can hold: the most that a step can send off it, and the most that can soak.
const MOST_LOST: u64 = (MOST_SQUARES as u64) * (MOST_DEPTH as u64);

// All numbers of a list joined bit by bit: none is more than that.
fn joined(list: &[u32]) -> u32
    ensures { result ≡ joined_all list.now }
{
    let mut all: u32 = 0;
    for number in list {
        all |= *number;
    }
    all
}

// Whether it is sure, before its record is worked, that a step is refused neither by 8 nor by 9 nor by 15. `room` holds what is added.
pub fn surely_settles(run: Run, depths: &[u32], room: &[u32]) -> bool
    ensures { SurelyJudged run depths.now room.now result }
{
    if MOST_OUTFLOW - MOST_LOST < run.outflow {
        return false;
    }
    if MOST_SOAKED - MOST_LOST < run.soaked {
        return false;
    }
    let deepest = joined(depths) as u64;
    let most = joined(room) as u64;
    5 * deepest + most <= (MOST_DEPTH as u64)
}

// The first of 8, 9 and 15 that applies to the new depths in the room and the new totals, 0 for none. Where it is sure beforehand that none
// does, nothing is looked at.
fn late_number(
    sure: bool,
    shape: Shape,
    marks: &[u8],
    worked: &[u64],
    senders: &[u64],
    room: &[u32],
    outflow: u64,
    soaked: u64,
) -> u32
    requires shape_in_range { (ShapeInRange shape) × (length marks.now ≡ squares shape) × (length room.now ≡ squares shape) }
    requires worked_len { (length worked.now ≡ shape.rows) × (length senders.now ≡ shape.rows) × (NoneBeyond (plan shape marks.now) worked.now senders.now room.now) }
    ensures { result ≡ late_number sure (all_below (squares shape) (fits_at marks.now room.now)) outflow soaked }
{
    if sure {
        return 0;
    }
    if !all_fit(shape, marks, worked, senders, room) {
        return 8;
    }
    if MOST_OUTFLOW < outflow {
        return 9;
    }
    if MOST_SOAKED < soaked {
        return 15;
    }
    0
}

// Settles a step by the record in the slot after the newest, what its walk tells and the length that it leaves held. `room` is working room:
// before, it holds what is added; then the new depths are worked there. `sure` tells that nothing refuses the step.
pub fn settle(
    shape: Shape,
    sure: bool,
    marks: &[u8],
    left: &[u32],
    worked: &[u64],
    senders: &[u64],
    held: u64,
    run: Run,
    depths: &mut [u32],
    lasts: &mut [u32],
    records: &[u32],
    room: &mut [u32],
) -> Settled
    requires settles { Settles (plan shape marks.now) (next_record (plan shape marks.now) (world depths.old lasts.old records.now run)) held (world depths.old lasts.old records.now run) }
    requires walk_tells { WalkTells (plan shape marks.now) (next_record (plan shape marks.now) (world depths.old lasts.old records.now run)) depths.old lasts.old left.now worked.now senders.now }
    requires room_added { RoomAdded (plan shape marks.now) (next_record (plan shape marks.now) (world depths.old lasts.old records.now run)) room.old }
    requires run_value { sure ≡ true → settle_number (plan shape marks.now) (next_record (plan shape marks.now) (world depths.old lasts.old records.now run)) held (world depths.old lasts.old records.now run) ≡ 0 }
    ensures { SettlesTo (plan shape marks.now) (next_record (plan shape marks.now) (world depths.old lasts.old records.now run)) held (world depths.old lasts.old records.now run) result.refused (world depths.new lasts.new records.now result.run) }
{
    let size = record_size(shape);
    let slots = trials::slots_in(size, records.len());
    let slot = trials::slot_after(slots, run.newest);
    let at = trials::slot_start(size, slot);
    let end = at + size;
    let rec = &records[at..end];
    let lost = spread(shape, marks, rec, left, worked, depths, room);
    let outflow = run.outflow + lost.off;
    let soaked = run.soaked + lost.soaked;
    let refused = late_number(sure, shape, marks, worked, senders, room, outflow, soaked);
    if refused != 0 {
        return Settled {
            refused: refused,
            run: run,
        };
    }
    write_water(shape, marks, worked, senders, left, room, lasts, depths);
    let after = Run {
        clock: run.clock + lasted(rec),
        length: held,
        outflow: outflow,
        kept: trials::kept_after(slots, run.kept),
        newest: slot,
        soaked: soaked,
    };
    Settled {
        refused: 0,
        run: after,
    }
}

// The take-back: the newest record's step undone. It reads the newest record, marks, depths, last leaving and run; the record room is
// not written.
ghost use Rattle.std.specs.Prelude.{◌≡◌, false, true, [], ◌∷◌, ◌+◌, ◌<◌, ◌≤◌, get_or, length, set};
ghost use Rattle.reckon.specs.Tests.{all_below, every, pick};
ghost use Rattle.reckon.specs.Lists.{filled};
ghost use Rattle.grid.specs.Squares.{OnSquare, shape_fine, squares};
ghost use Rattle.grid.specs.Marks.{closed};
ghost use Rattle.ledger.specs.Runs.{plan, world};
ghost use Rattle.ledger.specs.Inner.Worlds.{of_depths};
ghost use Rattle.ledger.specs.Flows.{came, gone};
ghost use Rattle.ledger.specs.Record.{Recorded, added_in, head_words, last_in, last_word, lasted_in, leaves_in, soaked_in, soaked_word, word_place};
ghost use Rattle.ledger.specs.Checks.{one_each};
ghost use Rattle.ledger.specs.TakeBack.{TakesBack, depth_before, restorable, run_before, square_restorable};
ghost use Rattle.ledger.specs.Inner.TakeBack.{RecordAndDepths, EarlyRefused, Restores};
ghost use Rattle.ledger.specs.Inner.Walks.{Walked};

use crate::lent::{one_each, times_fine, waters_fine};
use crate::record::{
    added_by, came_to, held_before, last_before, lasted, lost_from, off_from, record_size,
    soaked_from,
};
use crate::runs::{Answer, Run, run_fine};
use grid::marks::{is_closed, marks_fine};
use grid::squares::{Shape, next_column, shape_fine, squares_of};
use reckon::numbers::number;
use reckon::ranges::MOST_DEPTH;

// What a walk over the squares of a record finds: what left the grid, and what soaked.
#[derive(Clone, Copy)]
struct Found {
    off: u64,
    soaked: u64,
}

// Refusal 1: the shape is in range, and marks, depths and last leaving have one number a square.
fn back_sizes_fine(shape: Shape, marks: &[u8], depths: &[u32], lasts: &[u32]) -> bool
    ensures { result ≡ every (shape_fine shape ∷ one_each (plan shape marks.now) marks.now ∷ one_each (plan shape marks.now) depths.now ∷ one_each (plan shape marks.now) lasts.now ∷ []) }
{
    if !shape_fine(shape) {
        return false;
    }
    if !one_each(shape, marks.len()) {
        return false;
    }
    if !one_each(shape, depths.len()) {
        return false;
    }
    one_each(shape, lasts.len())
}

// The number of the first refusal before 11, 0 for none.
fn early_refusal(
    shape: Shape,
    run: Run,
    marks: &[u8],
    depths: &[u32],
    lasts: &[u32],
    records: &[u32],
) -> u32
    ensures { EarlyRefused (plan shape marks.now) (world depths.now lasts.now records.now run) result }
{
    if !back_sizes_fine(shape, marks, depths, lasts) {
        return 1;
    }
    if !marks_fine(shape, marks) {
        return 2;
    }
    if !waters_fine(shape, marks, depths, lasts) {
        return 3;
    }
    if !run_fine(trials::slots_in(record_size(shape), records.len()), run) {
        return 6;
    }
    if run.kept == 0 {
        return 10;
    }
    0
}

// A square's depth and what it has lost: what its depth before is taken from.
fn held_and_gone(rec: &[u32], depths: &[u32], square: usize) -> u64
    requires { (square < length depths.now) × (word_place square soaked_word < length rec.now) }
    ensures { result ≡ get_or depths.now square 0 + (gone (leaves_in rec.now) square + soaked_in rec.now square) }
{
    number(depths, square) + lost_from(rec, square)
}

// What came to a square and what was added: what is taken off that.
fn came_and_added(shape: Shape, marks: &[u8], rec: &[u32], square: usize, column: usize) -> u64
    requires recorded { Recorded (plan shape marks.now) rec.now }
    requires on_square { OnSquare shape square column }
    ensures { result ≡ came (plan shape marks.now) (leaves_in rec.now) square + added_in rec.now square }
{
    came_to(shape, marks, rec, square, column) + added_by(rec, square)
}

// Refusal 11 for one square: if it is not closed, its last leaving and its depth before are in range.
fn square_restorable(
    shape: Shape,
    marks: &[u8],
    rec: &[u32],
    depths: &[u32],
    square: usize,
    column: usize,
) -> bool
    requires record_and_depths { RecordAndDepths (plan shape marks.now) rec.now depths.now }
    requires on_square { OnSquare shape square column }
    ensures { result ≡ square_restorable (plan shape marks.now) (of_depths depths.now) rec.now square }
{
    if is_closed(marks, square) {
        return true;
    }
    if MOST_DEPTH < last_before(rec, square) {
        return false;
    }
    let more = held_and_gone(rec, depths, square);
    let less = came_and_added(shape, marks, rec, square, column);
    if more < less {
        return false;
    }
    more - less <= (MOST_DEPTH as u64)
}

// What left the grid and what soaked, where every square can be restored.
fn try_squares(shape: Shape, marks: &[u8], rec: &[u32], depths: &[u32]) -> Option<Found>
    requires { RecordAndDepths (plan shape marks.now) rec.now depths.now }
    ensures { Walked (plan shape marks.now) rec.now (all_below (squares shape) (square_restorable (plan shape marks.now) (of_depths depths.now) rec.now)) result }
{
    let mut off: u64 = 0;
    let mut soaked: u64 = 0;
    let mut column = 0;
    for square in 0..squares_of(shape) {
        if !square_restorable(shape, marks, rec, depths, square, column) {
            return None;
        }
        off += off_from(shape, marks, rec, square, column);
        soaked += soaked_from(marks, rec, square);
        column = next_column(shape, column);
    }
    Some(Found { off, soaked })
}

// What left the grid and what soaked, where a record can be taken back; none is refusal 11.
fn try_record(shape: Shape, run: Run, marks: &[u8], rec: &[u32], depths: &[u32]) -> Option<Found>
    requires { RecordAndDepths (plan shape marks.now) rec.now depths.now }
    ensures { Walked (plan shape marks.now) rec.now (restorable (plan shape marks.now) (world depths.now [] [] run) rec.now) result }
{
    if !times_fine(rec) {
        return None;
    }
    if run.clock < lasted(rec) {
        return None;
    }
    let found = try_squares(shape, marks, rec, depths)?;
    if run.outflow < found.off {
        return None;
    }
    if run.soaked < found.soaked {
        return None;
    }
    Some(found)
}

// Restores the depth of a square that is not closed.
fn restore_depth(
    shape: Shape,
    marks: &[u8],
    rec: &[u32],
    square: usize,
    column: usize,
    depths: &mut [u32],
)
    requires record_and_depths { RecordAndDepths (plan shape marks.now) rec.now depths.old }
    requires on_square { (OnSquare shape square column) × (closed marks.now square ≡ false → Restores (plan shape marks.now) rec.now depths.old square) }
    ensures { depths.new ≡ pick (closed marks.now square) depths.old (set depths.old square (depth_before (plan shape marks.now) (of_depths depths.old) rec.now square)) }
{
    if is_closed(marks, square) {
        return;
    }
    let more = held_and_gone(rec, depths, square);
    let less = came_and_added(shape, marks, rec, square, column);
    depths[square] = (more - less) as u32;
}

// Restores the depth of every square that is not closed.
fn restore_depths(shape: Shape, marks: &[u8], rec: &[u32], depths: &mut [u32])
    requires record_and_depths { RecordAndDepths (plan shape marks.now) rec.now depths.old }
    requires rec_value { all_below (squares shape) (square_restorable (plan shape marks.now) (of_depths depths.old) rec.now) ≡ true }
    ensures { depths.new ≡ filled (squares shape) (closed marks.now) (depth_before (plan shape marks.now) (of_depths depths.old) rec.now) depths.old }
{
    let mut column = 0;
    for square in 0..squares_of(shape) {
        restore_depth(shape, marks, rec, square, column, depths);
        column = next_column(shape, column);
    }
}

// Restores the last leaving of a square that is not closed.
fn restore_last(marks: &[u8], rec: &[u32], square: usize, lasts: &mut [u32])
    requires { (square < length marks.now) × (word_place square last_word < length rec.now) × (square < length lasts.old) }
    ensures { lasts.new ≡ pick (closed marks.now square) lasts.old (set lasts.old square (last_in rec.now square)) }
{
    if is_closed(marks, square) {
        return;
    }
    lasts[square] = last_before(rec, square);
}

// Restores the last leaving of every square that is not closed.
fn restore_lasts(shape: Shape, marks: &[u8], rec: &[u32], lasts: &mut [u32])
    requires { RecordAndDepths (plan shape marks.now) rec.now lasts.old }
    ensures { lasts.new ≡ filled (squares shape) (closed marks.now) (last_in rec.now) lasts.old }
{
    for square in 0..squares_of(shape) {
        restore_last(marks, rec, square, lasts);
    }
}

// The run before the step of a record that sent one amount off the grid and soaked another.
fn run_before(run: Run, slots: usize, rec: &[u32], off: u64, soaked: u64) -> Run
    requires head_words_in_bounds { (head_words ≤ length rec.now) × (run.newest < slots) × (1 ≤ run.kept) }
    requires rec_bound { (lasted_in rec.now ≤ run.clock) × (off ≤ run.outflow) × (soaked ≤ run.soaked) }
    ensures { result ≡ run_before slots run rec.now off soaked }
{
    Run {
        clock: run.clock - lasted(rec),
        length: held_before(rec),
        outflow: run.outflow - off,
        kept: run.kept - 1,
        newest: trials::slot_before(slots, run.newest),
        soaked: run.soaked - soaked,
    }
}

// Takes the newest step back: depths, last leaving and run as they were before it.
pub fn take_back(
    shape: Shape,
    run: Run,
    marks: &[u8],
    depths: &mut [u32],
    lasts: &mut [u32],
    records: &[u32],
) -> Answer
    ensures { TakesBack (plan shape marks.now) (world depths.old lasts.old records.now run) result depths.new lasts.new }
{
    let refused = early_refusal(shape, run, marks, depths, lasts, records);
    if refused != 0 {
        return Answer::Refused(refused);
    }
    let size = record_size(shape);
    let slots = trials::slots_in(size, records.len());
    let at = trials::slot_start(size, run.newest);
    let end = at + size;
    let rec = &records[at..end];
    let Some(found) = try_record(shape, run, marks, rec, depths) else {
        return Answer::Refused(11);
    };
    restore_depths(shape, marks, rec, depths);
    restore_lasts(shape, marks, rec, lasts);
    Answer::Done(run_before(run, slots, rec, found.off, found.soaked))
}

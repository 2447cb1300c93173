// Peaks raised by one state more.
ghost use Rattle.std.specs.Prelude.{◌≡◌, true, false, ◌+◌, ◌<◌, ◌≤◌, length};
ghost use Rattle.peaks.specs.Inner.Raised.{EightStay, Raises, RaisesBetween, RaisesOne, above_at, rises_at};

use grid::marks::is_closed;
use reckon::numbers::number;

// Whether a square's depth lies above its peak.
fn above(depths: &[u32], peaks: &[u32], square: usize) -> bool
    requires { (square < length depths.now) × (square < length peaks.now) }
    ensures { result ≡ above_at depths.now peaks.now square }
{
    number(peaks, square) < number(depths, square)
}

// Whether a square that is not closed rises to its depth: at the first state every one does.
fn rises(first: bool, marks: &[u8], depths: &[u32], peaks: &[u32], square: usize) -> bool
    requires { (square < length marks.now) × (square < length depths.now) × (square < length peaks.now) }
    ensures { result ≡ rises_at first marks.now depths.now peaks.now square }
{
    if is_closed(marks, square) {
        return false;
    }
    if first {
        return true;
    }
    above(depths, peaks, square)
}

// A square that rises takes its depth and the clock.
fn raise_one(
    first: bool,
    clock: u32,
    marks: &[u8],
    depths: &[u32],
    peaks: &mut [u32],
    clocks: &mut [u32],
    square: usize,
)
    requires { (square < length marks.now) × (square < length depths.now) × (square < length peaks.old) × (square < length clocks.old) }
    ensures { RaisesOne first clock marks.now depths.now peaks.old clocks.old square peaks.new clocks.new }
{
    if !rises(first, marks, depths, peaks, square) {
        return;
    }
    peaks[square] = depths[square];
    clocks[square] = clock;
}

// The squares from one up to another, one by one.
fn raise_between(
    first: bool,
    clock: u32,
    marks: &[u8],
    depths: &[u32],
    peaks: &mut [u32],
    clocks: &mut [u32],
    start: usize,
    stop: usize,
)
    requires { (start ≤ stop) × (stop ≤ length marks.now) × (stop ≤ length depths.now) × (stop ≤ length peaks.old) × (stop ≤ length clocks.old) }
    ensures { RaisesBetween first clock marks.now depths.now peaks.old clocks.old start stop peaks.new clocks.new }
{
    for square in start..stop {
        raise_one(first, clock, marks, depths, peaks, clocks, square);
    }
}

// ---- eight squares side by side

// Whether one of eight squares lies above its peak: eight tests and no branch, so that they are made together. The marks are not asked: a
// closed square that holds something is passed over when it is looked at.
fn eight_above(depths: &[u32], peaks: &[u32], at: usize) -> bool
    requires { (at + 8 ≤ length depths.now) × (at + 8 ≤ length peaks.now) }
    ensures { result ≡ false → EightStay false depths.now peaks.now at }
{
    above(depths, peaks, at)
        | above(depths, peaks, at + 1)
        | above(depths, peaks, at + 2)
        | above(depths, peaks, at + 3)
        | above(depths, peaks, at + 4)
        | above(depths, peaks, at + 5)
        | above(depths, peaks, at + 6)
        | above(depths, peaks, at + 7)
}

// Whether eight squares stay as they are. At the first state each is looked at.
fn eight_stay(first: bool, depths: &[u32], peaks: &[u32], at: usize) -> bool
    requires { (at + 8 ≤ length depths.now) × (at + 8 ≤ length peaks.now) }
    ensures { result ≡ true → EightStay first depths.now peaks.now at }
{
    if first {
        return false;
    }
    !eight_above(depths, peaks, at)
}

// Eight squares, one by one only where one of them may rise: after most steps most stay.
fn raise_eight(
    first: bool,
    clock: u32,
    marks: &[u8],
    depths: &[u32],
    peaks: &mut [u32],
    clocks: &mut [u32],
    at: usize,
)
    requires { (at + 8 ≤ length marks.now) × (at + 8 ≤ length depths.now) × (at + 8 ≤ length peaks.old) × (at + 8 ≤ length clocks.old) }
    ensures { RaisesBetween first clock marks.now depths.now peaks.old clocks.old at (at + 8) peaks.new clocks.new }
{
    if eight_stay(first, depths, peaks, at) {
        return;
    }
    raise_between(first, clock, marks, depths, peaks, clocks, at, at + 8);
}

// Each square not closed, with the depths of one state more: by eights, and what is left one by one.
pub fn raise(
    first: bool,
    clock: u32,
    marks: &[u8],
    depths: &[u32],
    peaks: &mut [u32],
    clocks: &mut [u32],
)
    requires { (length depths.now ≡ length marks.now) × (length peaks.old ≡ length marks.now) × (length clocks.old ≡ length marks.now) }
    ensures { Raises first clock marks.now depths.now peaks.old clocks.old peaks.new clocks.new }
{
    let squares = marks.len();
    let eights = squares / 8;
    for eight in 0..eights {
        raise_eight(first, clock, marks, depths, peaks, clocks, 8 * eight);
    }
    raise_between(
        first,
        clock,
        marks,
        depths,
        peaks,
        clocks,
        8 * eights,
        squares,
    );
}

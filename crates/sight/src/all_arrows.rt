// The flow arrows of a whole grid after a step: what is lent is checked once, and then each square's answer is that of `arrow`.
ghost use Rattle.std.specs.Prelude.{◌≡◌, [], ◌∷◌, ◌<◌, eqb, length, set};
ghost use Rattle.reckon.specs.Tests.{every};
ghost use Rattle.grid.specs.Squares.{squares};
ghost use Rattle.ledger.specs.Runs.{plan};
ghost use Rattle.sight.specs.Arrows.{seen_by, view};
ghost use Rattle.sight.specs.AllArrows.{SeesAll, arrow_in, kind_of, laid_out, sights};
ghost use Rattle.sight.specs.declared.arrows.Sight.TheVariants.{Closed};
ghost use Rattle.sight.specs.Inner.Arrows.{RoomsLong, SightLent, Timed};

use crate::arrows::{Sight, early_refusal, seen};
use crate::speeds::Arrow;
use grid::squares::{Shape, next_column, squares_of};
use ledger::lent::times_fine;
use ledger::record::record_size;
use ledger::runs::Run;

// The kind of what is seen of a square.
pub const MOVING: u8 = 0;

pub const CLOSED: u8 = 1;

pub const DRY: u8 = 2;

pub const STILL: u8 = 3;

// A refusal is of the whole grid: no square's kind is this.
const NO_KIND: u8 = 4;

fn kind_of(sight: Sight) -> u8
    ensures { result ≡ kind_of sight }
{
    match sight {
        Sight::Moving(_) => MOVING,
        Sight::Closed => CLOSED,
        Sight::Dry => DRY,
        Sight::Still => STILL,
        Sight::Refused(_) => NO_KIND,
    }
}

fn no_arrow() -> Arrow
    ensures { result ≡ arrow_in Closed }
{
    Arrow {
        east: 0.0,
        north: 0.0,
    }
}

// The arrow of what is seen, 0 where the square does not move.
fn arrow_in(sight: Sight) -> Arrow
    ensures { result ≡ arrow_in sight }
{
    match sight {
        Sight::Moving(arrow) => arrow,
        Sight::Closed => no_arrow(),
        Sight::Dry => no_arrow(),
        Sight::Still => no_arrow(),
        Sight::Refused(_) => no_arrow(),
    }
}

// Stores what is seen of a square.
fn keep_sight(sight: Sight, square: usize, kinds: &mut [u8], east: &mut [f64], north: &mut [f64])
    requires { (square < length kinds.old) × (square < length east.old) × (square < length north.old) }
    ensures { (kinds.new ≡ set kinds.old square (kind_of sight)) × (east.new ≡ set east.old square (arrow_in sight).east) × (north.new ≡ set north.old square (arrow_in sight).north) }
{
    let arrow = arrow_in(sight);
    kinds[square] = kind_of(sight);
    east[square] = arrow.east;
    north[square] = arrow.north;
}

// Stores what is seen of every square by a record.
fn see_all(
    shape: Shape,
    square_side: u64,
    marks: &[u8],
    depths: &[u32],
    rec: &[u32],
    kinds: &mut [u8],
    east: &mut [f64],
    north: &mut [f64],
)
    requires sight_lent { SightLent (plan shape marks.now) depths.now rec.now }
    requires timed { (Timed square_side rec.now) × (RoomsLong (squares shape) kinds.old east.old north.old) }
    ensures { sights kinds.new east.new north.new ≡ laid_out (squares shape) (seen_by 0 (plan shape marks.now) square_side depths.now rec.now) }
{
    let mut column = 0;
    for square in 0..squares_of(shape) {
        let sight = seen(shape, square_side, marks, depths, rec, square, column);
        keep_sight(sight, square, kinds, east, north);
        column = next_column(shape, column);
    }
}

// Refusal 1: each room is as long as the marks.
fn rooms_fine(marks: usize, kinds: usize, east: usize, north: usize) -> bool
    ensures { result ≡ every (eqb kinds marks ∷ eqb east marks ∷ eqb north marks ∷ []) }
{
    if kinds != marks {
        return false;
    }
    if east != marks {
        return false;
    }
    north == marks
}

// The flow arrows of all squares after the newest step kept: 0, and each square's kind with its speeds; or a refusal's number, and the rooms stay as
// they were.
pub fn all_arrows(
    shape: Shape,
    square_side: u64,
    run: Run,
    marks: &[u8],
    depths: &[u32],
    records: &[u32],
    kinds: &mut [u8],
    east: &mut [f64],
    north: &mut [f64],
) -> u32
    ensures { SeesAll (plan shape marks.now) square_side (view depths.now records.now run) (sights kinds.old east.old north.old) result (sights kinds.new east.new north.new) }
{
    if !rooms_fine(marks.len(), kinds.len(), east.len(), north.len()) {
        return 1;
    }
    let refused = early_refusal(shape, square_side, run, marks, depths, records, 0, 0);
    if refused != 0 {
        return refused;
    }
    let size = record_size(shape);
    let at = trials::slot_start(size, run.newest);
    let end = at + size;
    let rec = &records[at..end];
    if !times_fine(rec) {
        return 11;
    }
    see_all(shape, square_side, marks, depths, rec, kinds, east, north);
    0
}

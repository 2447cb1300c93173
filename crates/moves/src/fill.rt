// The record of a step, worked from the water before it: one walk over the squares that have something to work or to write, all others
// standing in a record that is cleared first.
ghost use Rattle.std.specs.Prelude.{◌≡◌, false, ◌+◌, ◌-◌, ◌*◌, ◌^◌, ◌<◌, ◌≤◌, min, get_or, length};
ghost use Rattle.reckon.specs.Ranges.{most_depth, most_length};
ghost use Rattle.reckon.specs.Soaking.{Soaks, soak_due};
ghost use Rattle.grid.specs.Squares.{OnSquare, squares};
ghost use Rattle.grid.specs.Marks.{closed};
ghost use Rattle.grid.specs.Masks.{bits, digit, mask_from};
ghost use Rattle.grid.specs.Inner.Rows.{InRow};
ghost use Rattle.ledger.specs.Runs.{plan};
ghost use Rattle.ledger.specs.Flows.{four_sides};
ghost use Rattle.checks.specs.Given.{ground};
ghost use Rattle.moves.specs.Inner.Fill.{FilledColumns, FilledOn, FilledOne, Fills, HasRow, HasRows, HasSquare, UnstirredBy, UnstirredRow, LeftKept, LeftTo, RecordFilled, sender_rows, stirs, worked_rows, works_on};

use crate::drops::drops_of;
use crate::way::{Place, Row, Span};
use adding::way::Way;
use grid::marks::is_closed;
use grid::squares::Shape;
use grid::walks::{Walk, lowest_set, within_row, without_lowest};
use ledger::record::{put_head, put_square};
use reckon::numbers::{lesser, number};
use reckon::soaking::soak_due;
use rule::weighing::weigh;

// What leaves through the four sides together.
fn four_leaving(leaves: [u64; 4]) -> u64
    requires { four_sides (λ side. get_or leaves side 0) ≤ most_depth }
    ensures { result ≡ four_sides (λ side. get_or leaves side 0) }
{
    leaves[0] + leaves[1] + leaves[2] + leaves[3]
}

// What soaks into a square in a step from a clock on: the smaller of what is due and what the four sides leave of its depth.
fn soaks(rate: u64, start: u64, duration: u64, remaining: u64) -> u64
    requires { Soaks rate start (start + duration) }
    ensures { result ≡ min (soak_due rate start (start + duration)) remaining }
{
    lesser(soak_due(rate, start, start + duration), remaining)
}

// Works the words of a square that is not closed, and keeps what left it; the answer tells whether anything did.
fn work_square(
    way: Way,
    span: Span,
    at: Place,
    marks: &[u8],
    beds: &[u32],
    roughness: &[u32],
    rates: &[u32],
    depths: &[u32],
    lasts: &[u32],
    added: &[u32],
    rec: &mut [u32],
    left: &mut [u32],
) -> bool
    requires fills { Fills (plan way.shape marks.now) (ground way.rules beds.now roughness.now rates.now) depths.now lasts.now added.now span.start span.duration rec.old }
    requires on_square { (OnSquare way.shape at.square at.column) × (closed marks.now at.square ≡ false) × (length left.old ≡ squares way.shape) }
    ensures { FilledOne (plan way.shape marks.now) (ground way.rules beds.now roughness.now rates.now) depths.now lasts.now added.now span.start span.duration at.square rec.old rec.new left.old left.new result }
{
    let square = at.square;
    let depth = number(depths, square);
    let drops = drops_of(way, at, marks, beds, depths);
    let leaves = weigh(
        way.rules,
        depth,
        number(lasts, square),
        number(roughness, square),
        span.duration,
        drops,
    );
    let gone = four_leaving(leaves);
    let soaked = soaks(
        number(rates, square),
        span.start,
        span.duration,
        depth - gone,
    );
    put_square(rec, square, leaves, lasts[square], added[square], soaked);
    left[square] = gone as u32;
    gone != 0
}

// Works one square: a closed one has its zeros already, a dry one sends and soaks nothing.
fn fill_square(
    way: Way,
    span: Span,
    at: Place,
    marks: &[u8],
    beds: &[u32],
    roughness: &[u32],
    rates: &[u32],
    depths: &[u32],
    lasts: &[u32],
    added: &[u32],
    rec: &mut [u32],
    left: &mut [u32],
) -> bool
    requires fills { Fills (plan way.shape marks.now) (ground way.rules beds.now roughness.now rates.now) depths.now lasts.now added.now span.start span.duration rec.old }
    requires on_square { (OnSquare way.shape at.square at.column) × (length left.old ≡ squares way.shape) }
    ensures { FilledOne (plan way.shape marks.now) (ground way.rules beds.now roughness.now rates.now) depths.now lasts.now added.now span.start span.duration at.square rec.old rec.new left.old left.new result }
{
    let square = at.square;
    if is_closed(marks, square) {
        return false;
    }
    if depths[square] == 0 {
        put_square(rec, square, [0, 0, 0, 0], lasts[square], added[square], 0);
        left[square] = 0;
        return false;
    }
    work_square(
        way, span, at, marks, beds, roughness, rates, depths, lasts, added, rec, left,
    )
}

// ---- which squares are worked

// A bit for a square with anything to work or to write, else 0. One test of the three numbers together, and none of the mark: a closed square
// that holds something is passed over when it is worked.
fn stirring(depths: &[u32], lasts: &[u32], added: &[u32], square: usize, bit: u32) -> u32
    requires { HasSquare depths.now lasts.now added.now square }
    ensures { result ≡ digit (stirs depths.now lasts.now added.now square) * bit }
{
    if depths[square] | lasts[square] | added[square] == 0 {
        return 0;
    }
    bit
}

// The mask of eight squares side by side: eight bits and no branch, so that they are found together.
fn stirring_eight(depths: &[u32], lasts: &[u32], added: &[u32], at: usize) -> u32
    requires { HasRow depths.now lasts.now added.now at 8 }
    ensures { result ≡ mask_from (stirs depths.now lasts.now added.now) at 8 }
{
    stirring(depths, lasts, added, at, 1)
        + stirring(depths, lasts, added, at + 1, 2)
        + stirring(depths, lasts, added, at + 2, 4)
        + stirring(depths, lasts, added, at + 3, 8)
        + stirring(depths, lasts, added, at + 4, 16)
        + stirring(depths, lasts, added, at + 5, 32)
        + stirring(depths, lasts, added, at + 6, 64)
        + stirring(depths, lasts, added, at + 7, 128)
}

// The mask of eight squares that a walk works.
fn worked_eight(walk: Walk, depths: &[u32], lasts: &[u32], added: &[u32], at: usize) -> u64
    requires { HasRow depths.now lasts.now added.now at 8 }
    ensures { result ≡ mask_from (works_on walk depths.now lasts.now added.now) at 8 }
{
    match walk {
        Walk::All => 255,
        Walk::Wet => stirring_eight(depths, lasts, added, at) as u64,
    }
}

// 1 for a square that a walk works, else 0.
fn worked_digit(walk: Walk, depths: &[u32], lasts: &[u32], added: &[u32], square: usize) -> u64
    requires { HasSquare depths.now lasts.now added.now square }
    ensures { result ≡ digit (works_on walk depths.now lasts.now added.now square) }
{
    match walk {
        Walk::All => 1,
        Walk::Wet => stirring(depths, lasts, added, square, 1) as u64,
    }
}

// The mask of the squares of a row that a walk works, of which those from column `beyond` on are found.
fn worked_below(
    walk: Walk,
    depths: &[u32],
    lasts: &[u32],
    added: &[u32],
    row: Row,
    beyond: usize,
    columns: usize,
) -> u64
    requires { (HasRow depths.now lasts.now added.now row.first columns) × (beyond ≤ columns) × (row.mask ≡ mask_from (works_on walk depths.now lasts.now added.now) (row.first + beyond) (columns - beyond)) }
    ensures { result ≡ mask_from (works_on walk depths.now lasts.now added.now) row.first columns }
{
    let mut mask = row.mask;
    for ahead in (0..beyond).rev() {
        mask = mask * 2 + worked_digit(walk, depths, lasts, added, row.first + ahead);
    }
    mask
}

// The mask of the squares of a row that a walk works: by eights from its end, and what is left one by one.
fn worked_row(
    walk: Walk,
    depths: &[u32],
    lasts: &[u32],
    added: &[u32],
    first: usize,
    columns: usize,
) -> u64
    requires { HasRow depths.now lasts.now added.now first columns }
    ensures { result ≡ mask_from (works_on walk depths.now lasts.now added.now) first columns }
{
    let mut mask: u64 = 0;
    let mut ahead = columns;
    while 8 <= ahead {
        ahead -= 8;
        mask = mask * 256 + worked_eight(walk, depths, lasts, added, first + ahead);
    }
    let row = Row { first, mask };
    worked_below(walk, depths, lasts, added, row, ahead, columns)
}

// Marks the squares that a walk works, row by row. A pass of its own: beside the work on a square the loop would not stay in registers.
fn mark_worked(
    walk: Walk,
    shape: Shape,
    depths: &[u32],
    lasts: &[u32],
    added: &[u32],
    worked: &mut [u64],
)
    requires { HasRows shape depths.now lasts.now added.now worked.old }
    ensures { worked.new ≡ worked_rows walk shape depths.now lasts.now added.now }
{
    let rows = shape.rows;
    let columns = shape.columns;
    let mut first = 0;
    for row in 0..rows {
        worked[row] = worked_row(walk, depths, lasts, added, first, columns);
        first += columns;
    }
}

// ---- the walk

// The bit of a column, 0 where it sent nothing.
fn sender_bit(sent: bool, column: usize) -> u64
    requires { column < bits }
    ensures { result ≡ digit sent * 2 ^ column }
{
    if sent {
        return 1 << column;
    }
    0
}

// A row, by its columns that are worked; the answer is the mask of those that send.
fn fill_row(
    way: Way,
    span: Span,
    row: Row,
    marks: &[u8],
    beds: &[u32],
    roughness: &[u32],
    rates: &[u32],
    depths: &[u32],
    lasts: &[u32],
    added: &[u32],
    rec: &mut [u32],
    left: &mut [u32],
) -> u64
    requires fills { Fills (plan way.shape marks.now) (ground way.rules beds.now roughness.now rates.now) depths.now lasts.now added.now span.start span.duration rec.old }
    requires in_row { (InRow way.shape row.first) × (UnstirredRow (plan way.shape marks.now) depths.now lasts.now added.now row.first row.mask) × (length left.old ≡ squares way.shape) }
    ensures { FilledColumns (plan way.shape marks.now) (ground way.rules beds.now roughness.now rates.now) depths.now lasts.now added.now span.start span.duration row.first row.mask way.shape.columns rec.old rec.new left.old left.new result }
{
    let columns = way.shape.columns;
    let mut senders: u64 = 0;
    let mut rest = within_row(row.mask, columns);
    while rest != 0 {
        let column = lowest_set(rest);
        let square = row.first + column;
        let at = Place { square, column };
        let sent = fill_square(
            way, span, at, marks, beds, roughness, rates, depths, lasts, added, rec, left,
        );
        senders += sender_bit(sent, column);
        rest = without_lowest(rest);
    }
    senders
}

// All rows, each by its columns that are worked; tells the rows of the squares that send.
fn fill_rows(
    way: Way,
    span: Span,
    marks: &[u8],
    beds: &[u32],
    roughness: &[u32],
    rates: &[u32],
    depths: &[u32],
    lasts: &[u32],
    added: &[u32],
    worked: &[u64],
    rec: &mut [u32],
    left: &mut [u32],
    senders: &mut [u64],
)
    requires fills { Fills (plan way.shape marks.now) (ground way.rules beds.now roughness.now rates.now) depths.now lasts.now added.now span.start span.duration rec.old }
    requires unstirred_by { (UnstirredBy (plan way.shape marks.now) depths.now lasts.now added.now worked.now) × (length worked.now ≡ way.shape.rows) × (length left.old ≡ squares way.shape) × (length senders.old ≡ way.shape.rows) }
    ensures { (FilledOn (plan way.shape marks.now) (ground way.rules beds.now roughness.now rates.now) depths.now lasts.now added.now span.start span.duration 0 (squares way.shape) rec.old rec.new) × (LeftTo (plan way.shape marks.now) (ground way.rules beds.now roughness.now rates.now) depths.now lasts.now span.duration worked.now (squares way.shape) left.new) × (senders.new ≡ sender_rows (plan way.shape marks.now) (ground way.rules beds.now roughness.now rates.now) depths.now lasts.now span.duration) }
{
    let rows = way.shape.rows;
    let columns = way.shape.columns;
    let mut first = 0;
    for row in 0..rows {
        let mask = worked[row];
        let this = Row { first, mask };
        senders[row] = fill_row(
            way, span, this, marks, beds, roughness, rates, depths, lasts, added, rec, left,
        );
        first += columns;
    }
}

// ---- the record

// Works the whole record, all squares from the water before the step, by either walk; tells the rows of the squares that were worked and of
// those that send, and keeps what left each square that was worked.
pub fn fill(
    way: Way,
    span: Span,
    marks: &[u8],
    beds: &[u32],
    roughness: &[u32],
    rates: &[u32],
    depths: &[u32],
    lasts: &[u32],
    added: &[u32],
    rec: &mut [u32],
    left: &mut [u32],
    worked: &mut [u64],
    senders: &mut [u64],
)
    requires fills { Fills (plan way.shape marks.now) (ground way.rules beds.now roughness.now rates.now) depths.now lasts.now added.now span.start span.duration rec.old }
    requires held_le_most_length { (span.held ≤ most_length) × (length left.old ≡ squares way.shape) × (length worked.old ≡ way.shape.rows) × (length senders.old ≡ way.shape.rows) }
    ensures { (RecordFilled (plan way.shape marks.now) (ground way.rules beds.now roughness.now rates.now) depths.now lasts.now added.now span.held span.start span.duration rec.new) × (worked.new ≡ worked_rows way.walk way.shape depths.now lasts.now added.now) × (senders.new ≡ sender_rows (plan way.shape marks.now) (ground way.rules beds.now roughness.now rates.now) depths.now lasts.now span.duration) × (LeftKept way.walk (plan way.shape marks.now) (ground way.rules beds.now roughness.now rates.now) depths.now lasts.now added.now span.duration left.new) }
{
    rec.fill(0);
    put_head(rec, span.held, span.duration);
    let walk = way.walk;
    mark_worked(walk, way.shape, depths, lasts, added, worked);
    fill_rows(
        way, span, marks, beds, roughness, rates, depths, lasts, added, worked, rec, left, senders,
    );
}

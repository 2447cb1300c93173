// What a step moves, spread over the working room, which holds what is added: then it holds every new depth. What leaves the grid and what
// soaks is summed on the way. Only squares that the step has worked are looked at; each sends its amounts to its neighbours.
ghost use Rattle.std.specs.Prelude.{◌≡◌, ◌+◌, ◌*◌, ◌%◌, ◌^◌, ◌<◌, false, length, slice_index, slice_set};
ghost use Rattle.reckon.specs.Ranges.{most_depth};
ghost use Rattle.grid.specs.Squares.{OnSquare, on_rim, sides};
ghost use Rattle.grid.specs.Marks.{closed};
ghost use Rattle.grid.specs.Inner.Rows.{InRow};
ghost use Rattle.ledger.specs.Runs.{plan};
ghost use Rattle.ledger.specs.Flows.{gone, off_side, off_square, shut};
ghost use Rattle.ledger.specs.Record.{leaves_in};
ghost use Rattle.settling.specs.Inner.Settle.{Grown, IdleAt, IdleBy, LeftBy, RoomAdded, SpaceLeft, SendsFew, SpreadAll, SpreadTo, Spreads, WhereClear, WhereSet, brings, brings_all};

use grid::marks::is_closed;
use grid::squares::{EAST, NORTH, SOUTH, Shape, WEST, beside_on, on_rim, squares_of};
use grid::walks::{lowest_set, within_row, without_lowest};
use ledger::record::{leaving, soaked_by};
use reckon::numbers::number;
use std::num::wrapping_add_u32;

// What leaves the grid, and what soaks.
#[derive(Clone, Copy)]
pub(crate) struct Lost {
    pub(crate) off: u64,
    pub(crate) soaked: u64,
}

// Adds an amount at a square of the room. No mark is looked at: what stands at a closed square decides nothing, and so it may wrap.
fn send_to(square: usize, amount: u64, room: &mut [u32])
    requires { (square < length room.old) × (amount < 2 ^ 32) }
    ensures { room.new ≡ slice_set room.old square ((slice_index room.old square + amount) % 2 ^ 32) }
{
    room[square] = wrapping_add_u32(room[square], amount as u32);
}

// Sends what leaves a square through a side to the neighbour there; the answer is what leaves the grid.
fn send_side(
    shape: Shape,
    marks: &[u8],
    rec: &[u32],
    square: usize,
    column: usize,
    side: usize,
    room: &mut [u32],
) -> u64
    requires sends_few { (SendsFew (plan shape marks.now) rec.now square column) × (side < sides) }
    requires space_left { (SpaceLeft (plan shape marks.now) most_depth room.old) × (length room.old ≡ length marks.now) }
    ensures { (result ≡ off_side (plan shape marks.now) (leaves_in rec.now) square side) × (Grown (plan shape marks.now) (brings (plan shape marks.now) rec.now square side) room.old room.new) }
{
    let amount = leaving(rec, square, side);
    let at = beside_on(shape, square, column, side);
    if squares_of(shape) <= at {
        return amount;
    }
    send_to(at, amount, room);
    0
}

// The same through all four sides.
fn send_by_sides(
    shape: Shape,
    marks: &[u8],
    rec: &[u32],
    square: usize,
    column: usize,
    room: &mut [u32],
) -> u64
    requires sends_few { (SendsFew (plan shape marks.now) rec.now square column) × (shut (plan shape marks.now) square ≡ false) }
    requires space_left { (SpaceLeft (plan shape marks.now) (4 * most_depth) room.old) × (length room.old ≡ length marks.now) }
    ensures { (result ≡ off_square (plan shape marks.now) (leaves_in rec.now) square) × (Grown (plan shape marks.now) (brings_all (plan shape marks.now) rec.now square) room.old room.new) }
{
    let north = send_side(shape, marks, rec, square, column, NORTH, room);
    let east = send_side(shape, marks, rec, square, column, EAST, room);
    let south = send_side(shape, marks, rec, square, column, SOUTH, room);
    let west = send_side(shape, marks, rec, square, column, WEST, room);
    north + east + south + west
}

// The same from a square that is not on the rim: all four neighbours are there, so that no side is tested.
fn send_within(
    shape: Shape,
    marks: &[u8],
    rec: &[u32],
    square: usize,
    column: usize,
    room: &mut [u32],
)
    requires sends_few { (SendsFew (plan shape marks.now) rec.now square column) × (on_rim shape square ≡ false) }
    requires space_left { (SpaceLeft (plan shape marks.now) (4 * most_depth) room.old) × (length room.old ≡ length marks.now) }
    ensures { Grown (plan shape marks.now) (brings_all (plan shape marks.now) rec.now square) room.old room.new }
{
    let columns = shape.columns;
    send_to(square - columns, leaving(rec, square, NORTH), room);
    send_to(square + 1, leaving(rec, square, EAST), room);
    send_to(square + columns, leaving(rec, square, SOUTH), room);
    send_to(square - 1, leaving(rec, square, WEST), room);
}

// Sends what leaves a square that is not closed; the answer is what leaves the grid.
fn send(
    shape: Shape,
    marks: &[u8],
    rec: &[u32],
    square: usize,
    column: usize,
    room: &mut [u32],
) -> u64
    requires sends_few { (SendsFew (plan shape marks.now) rec.now square column) × (shut (plan shape marks.now) square ≡ false) }
    requires space_left { (SpaceLeft (plan shape marks.now) (4 * most_depth) room.old) × (length room.old ≡ length marks.now) }
    ensures { (result ≡ off_square (plan shape marks.now) (leaves_in rec.now) square) × (Grown (plan shape marks.now) (brings_all (plan shape marks.now) rec.now square) room.old room.new) }
{
    if on_rim(shape, square, column) {
        return send_by_sides(shape, marks, rec, square, column, room);
    }
    send_within(shape, marks, rec, square, column, room);
    0
}

// One square more, unless it is closed: what remains of its water stays, what leaves goes to its neighbours or off the grid.
fn spread_one(
    shape: Shape,
    marks: &[u8],
    rec: &[u32],
    left: &[u32],
    depths: &[u32],
    square: usize,
    column: usize,
    lost: Lost,
    room: &mut [u32],
) -> Lost
    requires spreads { (Spreads (plan shape marks.now) rec.now depths.now) × (OnSquare shape square column) × (SpreadTo (plan shape marks.now) rec.now depths.now square lost room.old) }
    requires square_in_bounds { (square < length left.now) × (closed marks.now square ≡ false → slice_index left.now square ≡ gone (leaves_in rec.now) square) }
    ensures { SpreadTo (plan shape marks.now) rec.now depths.now (square + 1) result room.new }
{
    if is_closed(marks, square) {
        return lost;
    }
    let soaked = soaked_by(rec, square);
    let remains = number(depths, square) - (number(left, square) + soaked);
    room[square] = (number(room, square) + remains) as u32;
    let off = send(shape, marks, rec, square, column, room);
    Lost {
        off: lost.off + off,
        soaked: lost.soaked + soaked,
    }
}

// A row, by the columns that were worked.
fn spread_row(
    shape: Shape,
    marks: &[u8],
    rec: &[u32],
    left: &[u32],
    depths: &[u32],
    first: usize,
    worked: u64,
    earlier: Lost,
    room: &mut [u32],
) -> Lost
    requires spreads { (Spreads (plan shape marks.now) rec.now depths.now) × (InRow shape first) × (SpreadTo (plan shape marks.now) rec.now depths.now first earlier room.old) }
    requires left_len { (length left.now ≡ length marks.now) × (WhereClear shape first worked (λ i. closed marks.now i ≡ false → IdleAt rec.now depths.now i)) × (WhereSet shape first worked (λ i. closed marks.now i ≡ false → slice_index left.now i ≡ gone (leaves_in rec.now) i)) }
    ensures { SpreadTo (plan shape marks.now) rec.now depths.now (first + shape.columns) result room.new }
{
    let columns = shape.columns;
    let mut lost = earlier;
    let mut rest = within_row(worked, columns);
    while rest != 0 {
        let column = lowest_set(rest);
        lost = spread_one(
            shape,
            marks,
            rec,
            left,
            depths,
            first + column,
            column,
            lost,
            room,
        );
        rest = without_lowest(rest);
    }
    lost
}

// All rows, by the rows of the squares that were worked.
pub(crate) fn spread(
    shape: Shape,
    marks: &[u8],
    rec: &[u32],
    left: &[u32],
    worked: &[u64],
    depths: &[u32],
    room: &mut [u32],
) -> Lost
    requires spreads { (Spreads (plan shape marks.now) rec.now depths.now) × (RoomAdded (plan shape marks.now) rec.now room.old) × (length left.now ≡ length marks.now) }
    requires worked_len { (length worked.now ≡ shape.rows) × (IdleBy (plan shape marks.now) rec.now depths.now worked.now) × (LeftBy (plan shape marks.now) rec.now left.now worked.now) }
    ensures { SpreadAll (plan shape marks.now) rec.now depths.now result room.new }
{
    let rows = shape.rows;
    let columns = shape.columns;
    let mut lost = Lost { off: 0, soaked: 0 };
    let mut first = 0;
    for row in 0..rows {
        lost = spread_row(
            shape,
            marks,
            rec,
            left,
            depths,
            first,
            worked[row],
            lost,
            room,
        );
        first += columns;
    }
    lost
}

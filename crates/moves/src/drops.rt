// The drops of a square.
ghost use Rattle.std.specs.Prelude.{◌≡◌, false, ◌+◌, ◌<◌, length, get_or};
ghost use Rattle.reckon.specs.Tests.{pick};
ghost use Rattle.grid.specs.Squares.{OnSquare, on_rim, sides, squares};
ghost use Rattle.grid.specs.Marks.{closed};
ghost use Rattle.rule.specs.Drops.{drop_to, level};
ghost use Rattle.rule.specs.Inner.InRange.{EdgeInRange};
ghost use Rattle.rule.specs.declared.rules.Rules as Declared;
ghost use Rattle.ledger.specs.Runs.{plan};
ghost use Rattle.moves.specs.Drops.{drops_of, side_drop};
ghost use Rattle.checks.specs.Inner.Ready.{GroundLent};

use crate::way::Place;
use adding::way::Way;
use grid::marks::{is_closed, is_exit};
use grid::squares::{EAST, NORTH, SOUTH, Shape, WEST, beside_on, on_rim, squares_of};
use reckon::numbers::number;
use rule::drops::{drop_off, drop_to};

// The level of a square's water.
fn level_of(beds: &[u32], depths: &[u32], square: usize) -> u64
    requires { (square < length beds.now) × (square < length depths.now) }
    ensures { result ≡ get_or beds.now square 0 + get_or depths.now square 0 }
{
    number(beds, square) + number(depths, square)
}

// The drop from a level towards a square: 0 where that is closed.
fn drop_beside(marks: &[u8], beds: &[u32], depths: &[u32], at: usize, own: u64) -> u64
    requires { (at < length marks.now) × (at < length beds.now) × (at < length depths.now) }
    ensures { result ≡ pick (closed marks.now at) 0 (drop_to own (level (get_or beds.now at 0) (get_or depths.now at 0))) }
{
    let drop = drop_to(own, level_of(beds, depths, at));
    if is_closed(marks, at) { 0 } else { drop }
}

// The four drops of a square that is not on the rim: all four neighbours are there, so that no side is tested.
fn drops_within(
    shape: Shape,
    marks: &[u8],
    beds: &[u32],
    depths: &[u32],
    square: usize,
    own: u64,
) -> [u64; 4]
    requires ground_lent { (GroundLent (plan shape marks.now) beds.now depths.now) × (square < squares shape) × (on_rim shape square ≡ false) }
    requires own_value { own ≡ get_or beds.now square 0 + get_or depths.now square 0 }
    ensures { (rules : Declared.Rules) → result ≡ drops_of (plan shape marks.now) rules beds.now depths.now square }
{
    let columns = shape.columns;
    [
        drop_beside(marks, beds, depths, square - columns, own),
        drop_beside(marks, beds, depths, square + 1, own),
        drop_beside(marks, beds, depths, square + columns, own),
        drop_beside(marks, beds, depths, square - 1, own),
    ]
}

// The drop through one side of a square whose level is known.
fn side_drop(
    way: Way,
    at: Place,
    marks: &[u8],
    beds: &[u32],
    depths: &[u32],
    side: usize,
    own: u64,
) -> u64
    requires ground_lent { (GroundLent (plan way.shape marks.now) beds.now depths.now) × (OnSquare way.shape at.square at.column) × (side < sides) × (EdgeInRange way.rules) }
    requires own_value { own ≡ get_or beds.now at.square 0 + get_or depths.now at.square 0 }
    ensures { result ≡ side_drop (plan way.shape marks.now) way.rules beds.now depths.now at.square side }
{
    let other = beside_on(way.shape, at.square, at.column, side);
    if other < squares_of(way.shape) {
        return drop_beside(marks, beds, depths, other, own);
    }
    if is_exit(marks, at.square) {
        return drop_off(way.rules, number(depths, at.square));
    }
    0
}

// The four drops of a square, north, east, south, west, each side tested.
pub(crate) fn drops_by_sides(
    way: Way,
    at: Place,
    marks: &[u8],
    beds: &[u32],
    depths: &[u32],
) -> [u64; 4]
    requires { (GroundLent (plan way.shape marks.now) beds.now depths.now) × (OnSquare way.shape at.square at.column) × (EdgeInRange way.rules) }
    ensures { result ≡ drops_of (plan way.shape marks.now) way.rules beds.now depths.now at.square }
{
    let own = level_of(beds, depths, at.square);
    [
        side_drop(way, at, marks, beds, depths, NORTH, own),
        side_drop(way, at, marks, beds, depths, EAST, own),
        side_drop(way, at, marks, beds, depths, SOUTH, own),
        side_drop(way, at, marks, beds, depths, WEST, own),
    ]
}

// The four drops of a square, where it can be without a test of each side. One caller: so the compiler works it there, with no call.
pub(crate) fn drops_of(way: Way, at: Place, marks: &[u8], beds: &[u32], depths: &[u32]) -> [u64; 4]
    requires { (GroundLent (plan way.shape marks.now) beds.now depths.now) × (OnSquare way.shape at.square at.column) × (EdgeInRange way.rules) }
    ensures { result ≡ drops_of (plan way.shape marks.now) way.rules beds.now depths.now at.square }
{
    if on_rim(way.shape, at.square, at.column) {
        return drops_by_sides(way, at, marks, beds, depths);
    }
    let own = level_of(beds, depths, at.square);
    drops_within(way.shape, marks, beds, depths, at.square, own)
}

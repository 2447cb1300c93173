// Step length: the least candidate of all squares, held or worked afresh.
ghost use Rattle.std.specs.Prelude.{◌≡◌, ◌+◌};
ghost use Rattle.grid.specs.Squares.{OnSquare};
ghost use Rattle.grid.specs.Masks.{RowMasked};
ghost use Rattle.grid.specs.Inner.Rows.{InRow, least_wet};
ghost use Rattle.rule.specs.Length.{least_from};
ghost use Rattle.ledger.specs.Runs.{plan};
ghost use Rattle.moves.specs.Moves.{candidates, square_candidates};
ghost use Rattle.moves.specs.Inner.Fill.{LengthWorked, firm, least_below};
ghost use Rattle.checks.specs.Inner.Ready.{MeadowInRange};

use crate::drops::drops_by_sides;
use crate::way::Place;
use adding::way::Way;
use grid::marks::is_closed;
use grid::masks::row_mask;
use grid::squares::{next_column, squares_of};
use grid::walks::{LEAST_WET, Walk, next_after, next_within};
use reckon::numbers::number;
use rule::length::{held_length, is_update, shorter};

// The least of best and the candidates of one square.
fn shorter_by(
    way: Way,
    at: Place,
    marks: &[u8],
    beds: &[u32],
    roughness: &[u32],
    depths: &[u32],
    best: u64,
) -> u64
    requires { (MeadowInRange (plan way.shape marks.now) (firm way.rules beds.now roughness.now) depths.now) × (OnSquare way.shape at.square at.column) }
    ensures { result ≡ least_from best (square_candidates (plan way.shape marks.now) (firm way.rules beds.now roughness.now) depths.now at.square) }
{
    if is_closed(marks, at.square) {
        return best;
    }
    let depth = number(depths, at.square);
    if depth == 0 {
        return best;
    }
    let drops = drops_by_sides(way, at, marks, beds, depths);
    shorter(way.rules, best, depth, number(roughness, at.square), drops)
}

// The least of the longest step and the candidates of all squares, one after the other.
fn least_of_all(way: Way, marks: &[u8], beds: &[u32], roughness: &[u32], depths: &[u32]) -> u64
    requires { MeadowInRange (plan way.shape marks.now) (firm way.rules beds.now roughness.now) depths.now }
    ensures { result ≡ least_from way.rules.longest (candidates (plan way.shape marks.now) (firm way.rules beds.now roughness.now) depths.now) }
{
    let squares = squares_of(way.shape);
    let mut best = way.rules.longest;
    let mut column = 0;
    for square in 0..squares {
        let at = Place { square, column };
        best = shorter_by(way, at, marks, beds, roughness, depths, best);
        column = next_column(way.shape, column);
    }
    best
}

// The least of best and the candidates of a row, by its columns with water.
fn least_in_row(
    way: Way,
    marks: &[u8],
    beds: &[u32],
    roughness: &[u32],
    depths: &[u32],
    longer: u64,
    first: usize,
    wet: u64,
) -> u64
    requires meadow_in_range { MeadowInRange (plan way.shape marks.now) (firm way.rules beds.now roughness.now) depths.now }
    requires in_row { (InRow way.shape first) × (RowMasked marks.now depths.now least_wet first way.shape.columns wet) }
    requires longer_value { longer ≡ least_below (plan way.shape marks.now) (firm way.rules beds.now roughness.now) depths.now first }
    ensures { result ≡ least_below (plan way.shape marks.now) (firm way.rules beds.now roughness.now) depths.now (first + way.shape.columns) }
{
    let columns = way.shape.columns;
    let mut best = longer;
    let mut column = next_within(wet, 0, columns);
    while column < columns {
        let square = first + column;
        let at = Place { square, column };
        best = shorter_by(way, at, marks, beds, roughness, depths, best);
        column = next_after(wet, column, columns);
    }
    best
}

// The same by the wet rows, which are made from the depths.
fn least_of_wet(way: Way, marks: &[u8], beds: &[u32], roughness: &[u32], depths: &[u32]) -> u64
    requires { MeadowInRange (plan way.shape marks.now) (firm way.rules beds.now roughness.now) depths.now }
    ensures { result ≡ least_from way.rules.longest (candidates (plan way.shape marks.now) (firm way.rules beds.now roughness.now) depths.now) }
{
    let rows = way.shape.rows;
    let columns = way.shape.columns;
    let mut best = way.rules.longest;
    let mut first = 0;
    for row in 0..rows {
        let wet = row_mask(marks, depths, LEAST_WET, first, columns);
        best = least_in_row(way, marks, beds, roughness, depths, best, first, wet);
        first += columns;
    }
    best
}

// The least of the longest step and all candidates, by either walk.
fn least_candidate(way: Way, marks: &[u8], beds: &[u32], roughness: &[u32], depths: &[u32]) -> u64
    requires { MeadowInRange (plan way.shape marks.now) (firm way.rules beds.now roughness.now) depths.now }
    ensures { result ≡ least_from way.rules.longest (candidates (plan way.shape marks.now) (firm way.rules beds.now roughness.now) depths.now) }
{
    let walk = way.walk;
    match walk {
        Walk::All => least_of_all(way, marks, beds, roughness, depths),
        Walk::Wet => least_of_wet(way, marks, beds, roughness, depths),
    }
}

// The length of the step at a clock: worked afresh at multiples of U, else the one held.
pub fn step_length(
    way: Way,
    marks: &[u8],
    beds: &[u32],
    roughness: &[u32],
    depths: &[u32],
    clock: u64,
    held: u64,
) -> u64
    requires { MeadowInRange (plan way.shape marks.now) (firm way.rules beds.now roughness.now) depths.now }
    ensures { LengthWorked (plan way.shape marks.now) (firm way.rules beds.now roughness.now) depths.now clock held result }
{
    if is_update(way.rules, clock) {
        return held_length(
            way.rules,
            least_candidate(way, marks, beds, roughness, depths),
        );
    }
    held
}

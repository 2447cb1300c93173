// The record of a step: its words read and written by name, and the amounts that they give. Only this file knows a word's place.
ghost use Rattle.std.specs.Prelude.{◌≡◌, ◌+◌, ◌<◌, ◌^◌, ◌≤◌, get_or, length};
ghost use Rattle.reckon.specs.Tests.{pick};
ghost use Rattle.reckon.specs.Ranges.{most_length};
ghost use Rattle.grid.specs.Squares.{ShapeInRange, OnSquare, east, north, sides, south, west};
ghost use Rattle.grid.specs.Marks.{closed};
ghost use Rattle.ledger.specs.Runs.{plan};
ghost use Rattle.ledger.specs.Flows.{gone, off_side};
ghost use Rattle.ledger.specs.Record.{AddedBy, CameTo, GoneFrom, HeadPut, HeldBefore, LastBefore, Lasted, Leaving, OffFrom, Recorded, SentTo, SizeOf, SoakedBy, SquarePut, added_word, head_words, last_word, leaves_in, soaked_in, soaked_word, square_words, word_place};

use grid::marks::is_closed;
use grid::squares::{
    EAST, MOST_SQUARES, NORTH, SOUTH, Shape, WEST, beside_on, on_rim, opposite_side, squares_of,
};
use reckon::copying::copy_into;
use reckon::numbers::number;

// The words before the squares, and those of a square: its four sides, then these three.
pub const HEAD_WORDS: usize = 2;

pub const SQUARE_WORDS: usize = 7;

const LAST_WORD: usize = 4;

const ADDED_WORD: usize = 5;

const SOAKED_WORD: usize = 6;

// The words of the largest record: a room for one record is this long.
pub const MOST_RECORD: usize = HEAD_WORDS + SQUARE_WORDS * MOST_SQUARES;

// The words of a record.
pub fn record_size(shape: Shape) -> usize
    requires { ShapeInRange shape }
    ensures { SizeOf shape result }
{
    HEAD_WORDS + SQUARE_WORDS * squares_of(shape)
}

// Where a word of a square stands.
fn word_place(square: usize, word: usize) -> usize
    requires { word_place square word < 2 ^ 64 }
    ensures { result ≡ word_place square word }
{
    HEAD_WORDS + (SQUARE_WORDS * square + word)
}

// The length held before the step.
pub fn held_before(rec: &[u32]) -> u64
    requires { head_words ≤ length rec.now }
    ensures { HeldBefore rec.now result }
{
    number(rec, 0)
}

// How long the step lasted.
pub fn lasted(rec: &[u32]) -> u64
    requires { head_words ≤ length rec.now }
    ensures { Lasted rec.now result }
{
    number(rec, 1)
}

// What left a square through a side.
pub fn leaving(rec: &[u32], square: usize, side: usize) -> u64
    requires { word_place square side < length rec.now }
    ensures { Leaving rec.now square side result }
{
    number(rec, word_place(square, side))
}

// A square's last leaving before the step.
pub fn last_before(rec: &[u32], square: usize) -> u32
    requires { word_place square last_word < length rec.now }
    ensures { LastBefore rec.now square result }
{
    let at = word_place(square, LAST_WORD);
    rec[at]
}

// What the step added to a square.
pub fn added_by(rec: &[u32], square: usize) -> u64
    requires { word_place square added_word < length rec.now }
    ensures { AddedBy rec.now square result }
{
    number(rec, word_place(square, ADDED_WORD))
}

// What soaked into a square's ground.
pub fn soaked_by(rec: &[u32], square: usize) -> u64
    requires { word_place square soaked_word < length rec.now }
    ensures { SoakedBy rec.now square result }
{
    number(rec, word_place(square, SOAKED_WORD))
}

// What left a square through its four sides.
pub fn gone_from(rec: &[u32], square: usize) -> u64
    requires { word_place square west < length rec.now }
    ensures { GoneFrom rec.now square result }
{
    leaving(rec, square, NORTH)
        + leaving(rec, square, EAST)
        + leaving(rec, square, SOUTH)
        + leaving(rec, square, WEST)
}

// What a square has lost: what left it, and what soaked.
pub(crate) fn lost_from(rec: &[u32], square: usize) -> u64
    requires { word_place square soaked_word < length rec.now }
    ensures { result ≡ gone (leaves_in rec.now) square + soaked_in rec.now square }
{
    gone_from(rec, square) + soaked_by(rec, square)
}

// What soaked into a square's ground: nothing where it is closed.
pub(crate) fn soaked_from(marks: &[u8], rec: &[u32], square: usize) -> u64
    requires { (square < length marks.now) × (word_place square soaked_word < length rec.now) }
    ensures { result ≡ pick (closed marks.now square) 0 (soaked_in rec.now square) }
{
    if is_closed(marks, square) {
        return 0;
    }
    soaked_by(rec, square)
}

// What the square at a place sent through a side: nothing where it is closed.
fn sent_from(marks: &[u8], rec: &[u32], at: usize, side: usize) -> u64
    requires { (at < length marks.now) × (word_place at side < length rec.now) }
    ensures { result ≡ pick (closed marks.now at) 0 (leaves_in rec.now at side) }
{
    if is_closed(marks, at) {
        return 0;
    }
    leaving(rec, at, side)
}

// What the neighbour on a side sent: nothing where there is none, or a closed one.
pub fn sent_to(
    shape: Shape,
    marks: &[u8],
    rec: &[u32],
    square: usize,
    column: usize,
    side: usize,
) -> u64
    requires recorded { Recorded (plan shape marks.now) rec.now }
    requires on_square { OnSquare shape square column }
    requires side_lt_sides { side < sides }
    ensures { SentTo (plan shape marks.now) rec.now square side result }
{
    let at = beside_on(shape, square, column, side);
    if squares_of(shape) <= at {
        return 0;
    }
    sent_from(marks, rec, at, opposite_side(side))
}

// What the neighbours sent.
pub fn came_to(shape: Shape, marks: &[u8], rec: &[u32], square: usize, column: usize) -> u64
    requires recorded { Recorded (plan shape marks.now) rec.now }
    requires on_square { OnSquare shape square column }
    ensures { CameTo (plan shape marks.now) rec.now square result }
{
    let north = sent_to(shape, marks, rec, square, column, NORTH);
    let east = sent_to(shape, marks, rec, square, column, EAST);
    let south = sent_to(shape, marks, rec, square, column, SOUTH);
    let west = sent_to(shape, marks, rec, square, column, WEST);
    north + east + south + west
}

// What a square sent off the grid through a side.
fn off_side(
    shape: Shape,
    marks: &[u8],
    rec: &[u32],
    square: usize,
    column: usize,
    side: usize,
) -> u64
    requires recorded { Recorded (plan shape marks.now) rec.now }
    requires on_square { OnSquare shape square column }
    requires side_lt_sides { side < sides }
    ensures { result ≡ off_side (plan shape marks.now) (leaves_in rec.now) square side }
{
    if beside_on(shape, square, column, side) < squares_of(shape) {
        return 0;
    }
    leaving(rec, square, side)
}

// What a square sent off the grid: nothing where it is closed.
pub fn off_from(shape: Shape, marks: &[u8], rec: &[u32], square: usize, column: usize) -> u64
    requires recorded { Recorded (plan shape marks.now) rec.now }
    requires on_square { OnSquare shape square column }
    ensures { OffFrom (plan shape marks.now) rec.now square result }
{
    if is_closed(marks, square) {
        return 0;
    }
    if !on_rim(shape, square, column) {
        return 0;
    }
    let north = off_side(shape, marks, rec, square, column, NORTH);
    let east = off_side(shape, marks, rec, square, column, EAST);
    let south = off_side(shape, marks, rec, square, column, SOUTH);
    let west = off_side(shape, marks, rec, square, column, WEST);
    north + east + south + west
}

// Writes the length held before the step, and how long it lasts.
pub fn put_head(rec: &mut [u32], held: u64, lasts: u64)
    requires head_words_in_bounds { head_words ≤ length rec.old }
    requires held_le_most_length { (held ≤ most_length) × (lasts ≤ most_length) }
    ensures { HeadPut rec.old held lasts rec.new }
{
    rec[0] = held as u32;
    rec[1] = lasts as u32;
}

// Writes a square: what leaves through its sides, its last leaving before, what is added, what soaks.
pub fn put_square(
    rec: &mut [u32],
    square: usize,
    leaves: [u64; 4],
    last: u32,
    added: u32,
    soaked: u64,
)
    requires square_words_in_bounds { word_place square square_words ≤ length rec.old }
    requires north_bound { (get_or leaves north 0 < 2 ^ 32) × (get_or leaves east 0 < 2 ^ 32) × (get_or leaves south 0 < 2 ^ 32) × (get_or leaves west 0 < 2 ^ 32) × (soaked < 2 ^ 32) }
    ensures { SquarePut rec.old square leaves last added soaked rec.new }
{
    let words: [u32; SQUARE_WORDS] = [
        leaves[0] as u32,
        leaves[1] as u32,
        leaves[2] as u32,
        leaves[3] as u32,
        last,
        added,
        soaked as u32,
    ];
    copy_into(&words, rec, word_place(square, NORTH));
}

// Text put into a lent room at a position. Each answers the position after it, and leaves all else in the room as it was.
ghost use Rattle.std.specs.Prelude.{◌+◌, ◌<◌, ◌≤◌, length};
ghost use Rattle.text.specs.Writing.{decimal, field_text, fields_text, line_text, PutByte, PutWord, PutNumber, PutField, PutFields, PutLine};

use crate::reading::{NEWLINE, TAB};

// The byte of the digit 0.
pub const ZERO: u64 = 48;

// A byte.
pub fn put_byte(room: &mut [u8], at: usize, byte: u8) -> usize
    requires { at < length room.old }
    ensures { PutByte byte at room.old room.new result }
{
    room[at] = byte;
    at + 1
}

// A word, byte for byte.
pub fn put_word(room: &mut [u8], at: usize, word: &[u8]) -> usize
    requires { at + length word.now ≤ length room.old }
    ensures { PutWord word.now at room.old room.new result }
{
    let next = at + word.len();
    room[at..next].copy_from_slice(word);
    next
}

// A number in decimal: the digits before its last, and then its last.
pub fn put_number(room: &mut [u8], at: usize, n: u64) -> usize
    requires { at + length (decimal n) ≤ length room.old }
    ensures { PutNumber n at room.old room.new result }
{
    if n < 10 {
        return put_byte(room, at, (ZERO + n) as u8);
    }
    let last = put_number(room, at, n / 10);
    put_byte(room, last, (ZERO + n % 10) as u8)
}

// A tab and a number.
pub fn put_field(room: &mut [u8], at: usize, n: u64) -> usize
    requires { at + length (field_text n) ≤ length room.old }
    ensures { PutField n at room.old room.new result }
{
    let next = put_byte(room, at, TAB);
    put_number(room, next, n)
}

// A field for each value.
pub fn put_fields(room: &mut [u8], at: usize, values: &[u64]) -> usize
    requires { at + length (fields_text values.now) ≤ length room.old }
    ensures { PutFields values.now at room.old room.new result }
{
    let mut next = at;
    for value in values {
        next = put_field(room, next, *value);
    }
    next
}

// A line of a kind: its word, a field for each value, and the end of the line.
pub fn put_line(room: &mut [u8], at: usize, word: &[u8], values: &[u64]) -> usize
    requires { at + length (line_text word.now values.now) ≤ length room.old }
    ensures { PutLine word.now values.now at room.old room.new result }
{
    let start = put_word(room, at, word);
    let end = put_fields(room, start, values);
    put_byte(room, end, NEWLINE)
}

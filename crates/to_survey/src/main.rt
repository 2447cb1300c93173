// Reads six file names from standard input, a sheet's and those of a note and of its grids of beds, depths, roughness and soak rates, and writes
// the sheet's set to these five, once all of it is judged and each of them can be written.

#![tactic(auto)]

use answer::printing::put_refused;
use files::{NAMES_ROOM, can_write, read_names, read_of, write_named};
use programs::limits::OUT_ROOM;
use std::rt::Files;
use survey::moving::{MOST_FILE, Moved, Part, to_part};

// A room that holds one byte more than a file may have, so that one that is too long is seen to be.
const FILE_ROOM: usize = MOST_FILE + 1;

// The parts, in the order in which their files are named, after the sheet's.
const PARTS: [Part; 5] = [
    Part::Note,
    Part::Bed,
    Part::Depth,
    Part::Roughness,
    Part::Rate,
];

// How many files there are, the sheet first.
const FILES: usize = PARTS.len() + 1;

fn say_refused(rt: &impl Print, number: u32, line: usize) {
    let mut out = [0u8; OUT_ROOM];
    let end = put_refused(&mut out, 0, number, line);
    let _ = rt.write_all(&out[..end]);
}

fn all_writable(rt: &impl Files, names: &[u8]) -> bool {
    (1..FILES).all(|place| can_write(rt, names, place))
}

// One part written to its file: whether it was.
fn write_part(rt: &impl Files, text: &[u8], names: &[u8], part: Part, place: usize) -> bool {
    let mut out = [0u8; MOST_FILE];
    match to_part(text, part, &mut out) {
        Moved::Refused(_number, _line) => false,
        Moved::Wrote(length) => write_named(rt, names, place, &out[..length]),
    }
}

fn write_parts(rt: &impl Files, text: &[u8], names: &[u8]) -> bool {
    PARTS
        .iter()
        .zip(1..FILES)
        .all(|(part, place)| write_part(rt, text, names, *part, place))
}

// A sheet that is refused is told so before any file is looked at. A file that cannot be opened, or takes only some of its text, is told as one
// that cannot be opened.
fn move_out(rt: &(impl Files + Print), text: &[u8], names: &[u8]) {
    let mut out = [0u8; MOST_FILE];
    match to_part(text, Part::Note, &mut out) {
        Moved::Refused(number, line) => say_refused(rt, number, line),
        Moved::Wrote(_length) => {
            if !all_writable(rt, names) {
                say_refused(rt, 12, 0);
                return;
            }
            if !write_parts(rt, text, names) {
                say_refused(rt, 12, 0);
            }
        }
    }
}

fn main(rt: HostRuntime) {
    let mut names = [0u8; NAMES_ROOM];
    let mut sheet = [0u8; FILE_ROOM];
    let count = read_names(&rt, &mut names);
    let length = read_of(&rt, &names[..count], 0, FILES, &mut sheet);
    move_out(&rt, &sheet[..length], &names[..count]);
}

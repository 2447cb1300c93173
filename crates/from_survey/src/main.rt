// Reads five file names from standard input, those of a note and of its grids of beds, depths, roughness and soak rates, and writes the sheet
// that they say.

#![tactic(auto)]

use answer::printing::put_refused;
use files::{NAMES_ROOM, read_names, read_of};
use programs::limits::OUT_ROOM;
use survey::moving::{MOST_FILE, Moved};
use survey::returning::from_set;

// A room that holds one byte more than a file may have, so that one that is too long is seen to be.
const FILE_ROOM: usize = MOST_FILE + 1;

// How many files there are.
const FILES: usize = 5;

fn say_refused(rt: &impl Print, number: u32, line: usize) {
    let mut out = [0u8; OUT_ROOM];
    let end = put_refused(&mut out, 0, number, line);
    let _ = rt.write_all(&out[..end]);
}

fn move_back(
    rt: &impl Print,
    note: &[u8],
    bed: &[u8],
    depth: &[u8],
    roughness: &[u8],
    rate: &[u8],
) {
    let mut out = [0u8; MOST_FILE];
    match from_set(note, bed, depth, roughness, rate, &mut out) {
        Moved::Refused(number, line) => say_refused(rt, number, line),
        Moved::Wrote(length) => {
            let _ = rt.write_all(&out[..length]);
        }
    }
}

fn main(rt: HostRuntime) {
    let mut names = [0u8; NAMES_ROOM];
    let mut note = [0u8; FILE_ROOM];
    let mut bed = [0u8; FILE_ROOM];
    let mut depth = [0u8; FILE_ROOM];
    let mut roughness = [0u8; FILE_ROOM];
    let mut rate = [0u8; FILE_ROOM];
    let count = read_names(&rt, &mut names);
    let note_length = read_of(&rt, &names[..count], 0, FILES, &mut note);
    let bed_length = read_of(&rt, &names[..count], 1, FILES, &mut bed);
    let depth_length = read_of(&rt, &names[..count], 2, FILES, &mut depth);
    let roughness_length = read_of(&rt, &names[..count], 3, FILES, &mut roughness);
    let rate_length = read_of(&rt, &names[..count], 4, FILES, &mut rate);
    move_back(
        &rt,
        &note[..note_length],
        &bed[..bed_length],
        &depth[..depth_length],
        &roughness[..roughness_length],
        &rate[..rate_length],
    );
}

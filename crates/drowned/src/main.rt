// Reads a depth and sheets' file names from standard input, runs each sheet to its end, and writes of each square how many had it that deep, the
// deepest value and the sheet that first gave it; then the sheets run and refused.

#![tactic(auto)]

use answer::printing::put_refused;
use files::{read_input, read_named};
use lists::names::{Listed, MOST_SHEETS, read_list};
use lists::printing::put_drowned;
use lists::tally::{Tally, begin_tally, take_sheet};
use programs::limits::{OUT_ROOM, PROGRAM_SQUARES, TEXT_ROOM};
use std::rt::Files;

// Takes one name of a list, on a line of its own: its file's bytes, or that they did not all come.
fn take_name(
    rt: &impl Files,
    tally: Tally,
    list: &[u8],
    line: usize,
    marks: &mut [u8; PROGRAM_SQUARES],
    counts: &mut [u8; PROGRAM_SQUARES],
    deepest: &mut [u32; PROGRAM_SQUARES],
    places: &mut [u8; PROGRAM_SQUARES],
    numbers: &mut [u32; MOST_SHEETS],
) -> Tally {
    let mut text = [0u8; TEXT_ROOM];
    let came = read_named(rt, list, line, &mut text);
    let length = came.length;
    take_sheet(
        tally,
        came.whole,
        &text[..length],
        marks,
        counts,
        deepest,
        places,
        numbers,
    )
}

// Takes the names of a list in turn, the first of them on its line 1, and writes what they came to.
fn take_list(rt: &(impl Files + Print), list: &[u8], listed: Listed) {
    let mut marks = [0u8; PROGRAM_SQUARES];
    let mut counts = [0u8; PROGRAM_SQUARES];
    let mut deepest = [0u32; PROGRAM_SQUARES];
    let mut places = [0u8; PROGRAM_SQUARES];
    let mut numbers = [0u32; MOST_SHEETS];
    let mut tally = begin_tally(listed.wet);
    for place in 1..=listed.names {
        tally = take_name(
            rt,
            tally,
            list,
            place,
            &mut marks,
            &mut counts,
            &mut deepest,
            &mut places,
            &mut numbers,
        );
    }
    let mut out = [0u8; OUT_ROOM];
    let bytes = put_drowned(
        tally, &marks, &counts, &deepest, &places, &numbers, &mut out,
    );
    let _ = rt.write_all(&out[..bytes]);
}

// Writes the list's refusal.
fn refuse(rt: &impl Print, number: u32, line: usize) {
    let mut out = [0u8; OUT_ROOM];
    let length = put_refused(&mut out, 0, number, line);
    let _ = rt.write_all(&out[..length]);
}

fn main(rt: HostRuntime) {
    let mut list = [0u8; TEXT_ROOM];
    let came = read_input(&rt, &mut list);
    let length = came.length;
    let listed = read_list(&list[..length]);
    let number = listed.number;
    if number != 0 {
        return refuse(&rt, number, listed.line);
    }
    take_list(&rt, &list[..length], listed);
}

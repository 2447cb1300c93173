// Reads a sheet from standard input, runs it to its end, and writes the highest water of each square with the clock when it first stood so high.

#![tactic(auto)]

use files::read_input;
use peaks::highest::highest_of;
use programs::limits::{OUT_ROOM, TEXT_ROOM};

fn main(rt: HostRuntime) {
    let mut text = [0u8; TEXT_ROOM];
    let came = read_input(&rt, &mut text);
    let got = came.length;
    let mut out = [0u8; OUT_ROOM];
    let length = highest_of(&text[..got], &mut out);
    let _ = rt.write_all(&out[..length]);
}

// Reads a sheet with `?` for beds that could not be seen from standard input, fills them in rounds, and writes the sheet and what was given,
// or its refusal.

#![tactic(auto)]

use files::read_input;
use holes::repairing::{REPAIR_ROOM, repair_of};
use programs::limits::TEXT_ROOM;

fn main(rt: HostRuntime) {
    let mut text = [0u8; TEXT_ROOM];
    let came = read_input(&rt, &mut text);
    let got = came.length;
    let mut out = [0u8; REPAIR_ROOM];
    let length = repair_of(&text[..got], &mut out);
    let _ = rt.write_all(&out[..length]);
}

// Reads a sheet from standard input, runs it to its end, and writes for how long each square was wet, 1 cm deep or deeper; or its refusal.

#![tactic(auto)]

use files::read_input;
use hours::hours::hours_of;
use programs::limits::{OUT_ROOM, TEXT_ROOM};

fn main(rt: HostRuntime) {
    let mut text = [0u8; TEXT_ROOM];
    let came = read_input(&rt, &mut text);
    let got = came.length;
    let mut out = [0u8; OUT_ROOM];
    let length = hours_of(&text[..got], &mut out);
    let _ = rt.write_all(&out[..length]);
}

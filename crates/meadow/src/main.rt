// Reads a sheet from standard input, runs it to its end, and writes the water that it leaves, or its refusal; of a long run standard error tells how far
// it has come.

#![tactic(auto)]

use files::read_input;
use programs::limits::{OUT_ROOM, TEXT_ROOM};
use slices::meadow::meadow_told;

fn main(rt: HostRuntime) {
    let mut text = [0u8; TEXT_ROOM];
    let came = read_input(&rt, &mut text);
    let got = came.length;
    let mut out = [0u8; OUT_ROOM];
    let length = meadow_told(&rt, &text[..got], &mut out);
    let _ = rt.write_all(&out[..length]);
}

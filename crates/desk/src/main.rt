// The warden's desk: reads lines from standard input, answers each, and makes the steps of a line `step` one by one.

#![tactic(auto)]

ghost use Rattle.std.specs.Prelude.{◌≡◌, ◌≤◌, length};
ghost use Rattle.sheet.specs.Sheet.{rooms};
ghost use Rattle.evenings.specs.Program.{stores};
ghost use Rattle.desks.specs.Inner.Further.{FurtherSteps};

use desks::command::{command, make_further, make_next, wanted};
use desks::state::{
    DESK_ALONG, DESK_NUMBERS, DESK_OUT, DESK_RATES, DESK_SQUARES, DESK_TEXT, Desk, empty_desk,
};
use files::read_all;
use reckon::tables::{INFLOW_ROOM, RAIN_ROOM};
use std::io::Read;

// A line has at most so many bytes, its newline counted.
const MOST_LINE: usize = 127;

const NEWLINE: u8 = 10;

// A line `step` takes at most 64 calls for its steps, and one for its end.
const MOST_CALLS: u32 = 65;

// A byte of the input, none at its end.
fn next_byte(input: &mut impl Read) -> Option<u8> {
    let mut one = [0u8; 1];
    match input.read(&mut one) {
        Ok(got) if got > 0 => Some(one[0]),
        _ => None,
    }
}

// Stores a byte of a line where there is room for it; how many are stored then.
fn keep(line: &mut [u8], length: usize, byte: u8) -> usize {
    if length < line.len() {
        line[length] = byte;
        return length + 1;
    }
    length
}

// A line with its newline, none at the end of the input; of one that is too long its first bytes, which have none. A proved loop has to end: it
// makes at most as many turns as no evening uses up.
fn read_line(input: &mut impl Read, line: &mut [u8]) -> usize {
    let mut length: usize = 0;
    for _ in 0..u64::MAX {
        let Some(byte) = next_byte(input) else {
            return length;
        };
        length = keep(line, length, byte);
        if byte == NEWLINE {
            return length;
        }
    }
    length
}

// How many bytes of text a line asks for.
fn wanted_after(line: &[u8], length: usize) -> usize {
    let end = length.min(line.len());
    wanted(&line[..end])
}

// The text that comes after a line; none of one that is too long.
fn read_text(input: &mut impl Read, text: &mut [u8], wants: usize) -> usize {
    if text.len() < wants {
        return 0;
    }
    let came = read_all(input, &mut text[..wants]);
    came.length
}

// The room of records, of which a proof needs only the length.
fn record_room() -> [u32; DESK_NUMBERS]
    ensures { 1_572_864 ≡ length result }
{
    [0; DESK_NUMBERS]
}

// Writes an answer, which always lies within its room.
fn tell(rt: &impl Print, out: &[u8], bytes: usize) {
    if bytes <= out.len() {
        let _ = rt.write_all(&out[..bytes]);
    }
}

// The steps of a line `step` after its first, each with its frame, all in the same working rooms.
fn further_steps(
    rt: &impl Print,
    begun: Desk,
    marks: &[u8; DESK_SQUARES],
    beds: &[u32; DESK_SQUARES],
    roughness: &[u32; DESK_SQUARES],
    rates: &[u32; DESK_SQUARES],
    rain: &[u32; RAIN_ROOM],
    inflow: &[u32; INFLOW_ROOM],
    depths: &mut [u32; DESK_SQUARES],
    lasts: &mut [u32; DESK_SQUARES],
    records: &mut [u32; DESK_NUMBERS],
    began: &mut [u32; DESK_RATES],
    out: &mut [u8; DESK_OUT],
) -> Desk
    requires { FurtherSteps begun (stores (rooms marks.now beds.now roughness.now rates.now depths.old rain.now inflow.now) lasts.old records.old began.old) }
{
    let mut left = [0u32; DESK_SQUARES];
    let mut worked = [0u64; DESK_ALONG];
    let mut senders = [0u64; DESK_ALONG];
    let mut room = [0u32; DESK_SQUARES];
    let mut desk = begun;
    for _ in 1..MOST_CALLS {
        let series = desk.series;
        if !series.on {
            return desk;
        }
        desk = make_further(
            desk,
            marks,
            beds,
            roughness,
            rates,
            rain,
            inflow,
            depths,
            lasts,
            records,
            began,
            out,
            &mut left,
            &mut worked,
            &mut senders,
            &mut room,
        );
        tell(rt, out, desk.length);
    }
    desk
}

// The steps of a line `step`: the first is checked, and each that was made leaves what the next may go by.
fn make_steps(
    rt: &impl Print,
    begun: Desk,
    marks: &[u8; DESK_SQUARES],
    beds: &[u32; DESK_SQUARES],
    roughness: &[u32; DESK_SQUARES],
    rates: &[u32; DESK_SQUARES],
    rain: &[u32; RAIN_ROOM],
    inflow: &[u32; INFLOW_ROOM],
    depths: &mut [u32; DESK_SQUARES],
    lasts: &mut [u32; DESK_SQUARES],
    records: &mut [u32; DESK_NUMBERS],
    began: &mut [u32; DESK_RATES],
    out: &mut [u8; DESK_OUT],
) -> Desk {
    let series = begun.series;
    if !series.on {
        return begun;
    }
    let first = make_next(
        begun, marks, beds, roughness, rates, rain, inflow, depths, lasts, records, began, out,
    );
    tell(rt, out, first.length);
    further_steps(
        rt, first, marks, beds, roughness, rates, rain, inflow, depths, lasts, records, began, out,
    )
}

// What a line does, with so many bytes of it and of the text after it.
fn answer(
    desk: Desk,
    line: &[u8],
    length: usize,
    text: &[u8],
    got: usize,
    marks: &mut [u8; DESK_SQUARES],
    beds: &mut [u32; DESK_SQUARES],
    roughness: &mut [u32; DESK_SQUARES],
    rates: &mut [u32; DESK_SQUARES],
    rain: &mut [u32; RAIN_ROOM],
    inflow: &mut [u32; INFLOW_ROOM],
    depths: &mut [u32; DESK_SQUARES],
    lasts: &mut [u32; DESK_SQUARES],
    records: &mut [u32; DESK_NUMBERS],
    began: &mut [u32; DESK_RATES],
    out: &mut [u8; DESK_OUT],
) -> Desk {
    let line_end = length.min(line.len());
    let text_end = got.min(text.len());
    command(
        desk,
        &line[..line_end],
        &text[..text_end],
        marks,
        beds,
        roughness,
        rates,
        rain,
        inflow,
        depths,
        lasts,
        records,
        began,
        out,
    )
}

// A line, the text after it, and all that they ask for: the desk then, none where no line can follow.
fn take_line(
    rt: &impl Print,
    input: &mut impl Read,
    desk: Desk,
    text: &mut [u8; DESK_TEXT],
    marks: &mut [u8; DESK_SQUARES],
    beds: &mut [u32; DESK_SQUARES],
    roughness: &mut [u32; DESK_SQUARES],
    rates: &mut [u32; DESK_SQUARES],
    rain: &mut [u32; RAIN_ROOM],
    inflow: &mut [u32; INFLOW_ROOM],
    depths: &mut [u32; DESK_SQUARES],
    lasts: &mut [u32; DESK_SQUARES],
    records: &mut [u32; DESK_NUMBERS],
    began: &mut [u32; DESK_RATES],
    out: &mut [u8; DESK_OUT],
) -> Option<Desk> {
    let mut line = [0u8; MOST_LINE];
    let length = read_line(input, &mut line);
    if length == 0 {
        return None;
    }
    let wants = wanted_after(&line, length);
    let got = read_text(input, text, wants);
    let after = answer(
        desk, &line, length, text, got, marks, beds, roughness, rates, rain, inflow, depths, lasts,
        records, began, out,
    );
    tell(rt, out, after.length);
    let stepped = make_steps(
        rt, after, marks, beds, roughness, rates, rain, inflow, depths, lasts, records, began, out,
    );
    if got != wants {
        return None;
    }
    Some(stepped)
}

// The lines of an evening, each answered before the next is read.
fn evening(rt: &(impl Input + Print)) {
    let mut input = rt.reader();
    let mut text = [0u8; DESK_TEXT];
    let mut marks = [0u8; DESK_SQUARES];
    let mut beds = [0u32; DESK_SQUARES];
    let mut roughness = [0u32; DESK_SQUARES];
    let mut rates = [0u32; DESK_SQUARES];
    let mut rain = [0u32; RAIN_ROOM];
    let mut inflow = [0u32; INFLOW_ROOM];
    let mut depths = [0u32; DESK_SQUARES];
    let mut lasts = [0u32; DESK_SQUARES];
    let mut records = record_room();
    let mut began = [0u32; DESK_RATES];
    let mut out = [0u8; DESK_OUT];
    let mut desk = empty_desk();
    for _ in 0..u64::MAX {
        let Some(after) = take_line(
            rt,
            &mut input,
            desk,
            &mut text,
            &mut marks,
            &mut beds,
            &mut roughness,
            &mut rates,
            &mut rain,
            &mut inflow,
            &mut depths,
            &mut lasts,
            &mut records,
            &mut began,
            &mut out,
        ) else {
            return;
        };
        desk = after;
    }
}

fn main(rt: HostRuntime) {
    evening(&rt);
}

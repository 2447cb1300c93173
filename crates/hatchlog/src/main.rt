// Reads two file names from standard input, a sheet's and a log's, takes the log's lines in turn, and writes the water at each line's clock and
// after each `back`, up to the first refusal.

#![tactic(auto)]

use evenings::program::{Night, RATES_ROOM, begin_log, go_on};
use files::read_two;
use hatches::log::MOST_NUMBERS;
use programs::limits::{OUT_ROOM, PROGRAM_SQUARES, TEXT_ROOM};
use reckon::tables::{INFLOW_ROOM, RAIN_ROOM};

// Takes the lines that are left, and writes what is printed of each.
fn take_lines(
    rt: &impl Print,
    begun: Night,
    log: &[u8],
    marks: &[u8; PROGRAM_SQUARES],
    beds: &[u32; PROGRAM_SQUARES],
    roughness: &[u32; PROGRAM_SQUARES],
    rates: &[u32; PROGRAM_SQUARES],
    rain: &[u32; RAIN_ROOM],
    inflow: &[u32; INFLOW_ROOM],
    depths: &mut [u32; PROGRAM_SQUARES],
    lasts: &mut [u32; PROGRAM_SQUARES],
    records: &mut [u32; MOST_NUMBERS],
    began: &mut [u32; RATES_ROOM],
) {
    let mut night = begun;
    while night.more {
        let mut out = [0u8; OUT_ROOM];
        night = go_on(
            night, log, marks, beds, roughness, rates, rain, inflow, depths, lasts, records, began,
            &mut out,
        );
        let bytes = night.length;
        let _ = rt.write_all(&out[..bytes]);
    }
}

// Opens the log over the sheet, in rooms of its own.
fn run_log(rt: &impl Print, sheet: &[u8], log: &[u8]) {
    let mut marks = [0u8; PROGRAM_SQUARES];
    let mut beds = [0u32; PROGRAM_SQUARES];
    let mut roughness = [0u32; PROGRAM_SQUARES];
    let mut rates = [0u32; PROGRAM_SQUARES];
    let mut rain = [0u32; RAIN_ROOM];
    let mut inflow = [0u32; INFLOW_ROOM];
    let mut depths = [0u32; PROGRAM_SQUARES];
    let mut lasts = [0u32; PROGRAM_SQUARES];
    let mut records = [0u32; MOST_NUMBERS];
    let mut began = [0u32; RATES_ROOM];
    let mut out = [0u8; OUT_ROOM];
    let night = begin_log(
        sheet,
        log,
        &mut marks,
        &mut beds,
        &mut roughness,
        &mut rates,
        &mut rain,
        &mut inflow,
        &mut depths,
        &mut lasts,
        &mut records,
        &mut began,
        &mut out,
    );
    let bytes = night.length;
    let _ = rt.write_all(&out[..bytes]);
    take_lines(
        rt,
        night,
        log,
        &marks,
        &beds,
        &roughness,
        &rates,
        &rain,
        &inflow,
        &mut depths,
        &mut lasts,
        &mut records,
        &mut began,
    );
}

fn main(rt: HostRuntime) {
    let mut sheet = [0u8; TEXT_ROOM];
    let mut log = [0u8; TEXT_ROOM];
    let handed = read_two(&rt, &mut sheet, &mut log);
    let sheet_length = handed.first;
    let log_length = handed.second;
    run_log(&rt, &sheet[..sheet_length], &log[..log_length]);
}

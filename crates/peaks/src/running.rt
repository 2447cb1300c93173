// A run to an end with the peaks of its states.
ghost use Rattle.std.specs.Prelude.{◌≡◌, false, [], ◌∷◌, ◌≤◌, eqb, length};
ghost use Rattle.reckon.specs.Ranges.{last_clock};
ghost use Rattle.reckon.specs.Tests.{every};
ghost use Rattle.grid.specs.Squares.{squares, shape_fine};
ghost use Rattle.ledger.specs.Runs.{plan, world};
ghost use Rattle.checks.specs.Given.{given, ground};
ghost use Rattle.adding.specs.Inner.Added.{rows_apart};
ghost use Rattle.flood.specs.Step.{Passes};
ghost use Rattle.sheet.specs.Sheet.{rooms};
ghost use Rattle.programs.specs.Program.{program_squares};
ghost use Rattle.programs.specs.Inner.Held.{Holds, parts_of};
ghost use Rattle.peaks.specs.Peaks.{RunsPeaking};
ghost use Rattle.peaks.specs.Inner.Raised.{PeaksOn, Raises};
ghost use Rattle.peaks.specs.Inner.Sheets.{RunsSheetPeaks};

use crate::raising::raise;
use adding::added::rows_apart;
use adding::way::Way;
use checks::fresh::fresh_run;
use checks::refusals::check;
use flood::run::{Keeper, Ran, run_kept};
use grid::squares::{Shape, shape_fine, squares_of};
use grid::walks::Walk;
use ledger::record::record_size;
use ledger::runs::Run;
use programs::limits::{PROGRAM_SQUARES, RECORD_ROOM};
use reckon::tables::{INFLOW_WIDTH, RAIN_WIDTH};
use rule::rules::Rules;
use sheet::reading::Heading;

// The highest depth of each square so far, and the clock when it first stood so high.
#[derive(Drop)]
struct Peaks<'a> {
    peaks: &'a mut [u32],
    clocks: &'a mut [u32],
}

impl<'a> Keeper for Peaks<'a> {
    ghost fits = { λ p clock it. (length it.peaks.now ≡ length p.marks) × (length it.clocks.now ≡ length p.marks) };

    ghost keeps = { λ p depths before clock it after. (after.peaks.ghost_name ≡ it.peaks.ghost_name) × (after.clocks.ghost_name ≡ it.clocks.ghost_name) × (Raises false clock p.marks depths it.peaks.now it.clocks.now after.peaks.now after.clocks.now) };

    fn keep(&mut self, shape: Shape, marks: &[u8], depths: &[u32], before: u64, clock: u64) {
        raise(false, clock as u32, marks, depths, self.peaks, self.clocks);
    }
}

// Steps while the clock is below the end, up to a step that is refused, with the peaks of the first state and of each after a step.
fn peak_on(
    way: Way,
    run: Run,
    end: u64,
    marks: &[u8],
    beds: &[u32],
    roughness: &[u32],
    rates: &[u32],
    rain: &[u32],
    inflow: &[u32],
    depths: &mut [u32],
    lasts: &mut [u32],
    records: &mut [u32],
    peaks: &mut [u32],
    clocks: &mut [u32],
) -> Ran
    requires passes { Passes (plan way.shape marks.now) (given (ground way.rules beds.now roughness.now rates.now) rain.now inflow.now) (world depths.old lasts.old records.old run) }
    requires apart_value { (way.apart ≡ rows_apart inflow.now) × (end ≤ last_clock) }
    requires peaks_len { (length peaks.old ≡ squares way.shape) × (length clocks.old ≡ squares way.shape) }
    ensures { PeaksOn (plan way.shape marks.now) (given (ground way.rules beds.now roughness.now rates.now) rain.now inflow.now) end (world depths.old lasts.old records.old run) peaks.old clocks.old result depths.new lasts.new records.new peaks.new clocks.new }
{
    raise(true, run.clock as u32, marks, depths, peaks, clocks);
    let mut kept = Peaks {
        peaks: peaks,
        clocks: clocks,
    };
    run_kept(
        &mut kept, way, run, end, marks, beds, roughness, rates, rain, inflow, depths, lasts,
        records,
    )
}

// Whether the rooms of peaks hold one number a square.
fn peak_rooms_fine(shape: Shape, peaks: &[u32], clocks: &[u32]) -> bool
    ensures { result ≡ every (shape_fine shape ∷ eqb (length peaks.now) (squares shape) ∷ eqb (length clocks.now) (squares shape) ∷ []) }
{
    if !shape_fine(shape) {
        return false;
    }
    let squares = squares_of(shape);
    if peaks.len() != squares {
        return false;
    }
    clocks.len() == squares
}

// A run to an end by the wet walk as `flood::run::run_to` makes it, with the peaks of its states; or a refusal.
pub fn run_peaks(
    shape: Shape,
    rules: Rules,
    run: Run,
    end: u64,
    marks: &[u8],
    beds: &[u32],
    roughness: &[u32],
    rates: &[u32],
    rain: &[u32],
    inflow: &[u32],
    depths: &mut [u32],
    lasts: &mut [u32],
    records: &mut [u32],
    peaks: &mut [u32],
    clocks: &mut [u32],
) -> Ran
    ensures { RunsPeaking (plan shape marks.now) (given (ground rules beds.now roughness.now rates.now) rain.now inflow.now) end (world depths.old lasts.old records.old run) peaks.old clocks.old result depths.new lasts.new records.new peaks.new clocks.new }
{
    if !peak_rooms_fine(shape, peaks, clocks) {
        return Ran {
            refused: 1,
            steps: 0,
            run: run,
        };
    }
    let number = check(
        shape,
        rules,
        run,
        end,
        marks,
        beds,
        roughness,
        rates,
        rain,
        inflow,
        depths,
        lasts,
        records.len(),
    );
    if number != 0 {
        return Ran {
            refused: number,
            steps: 0,
            run: run,
        };
    }
    let way = Way {
        walk: Walk::Wet,
        shape: shape,
        rules: rules,
        apart: rows_apart(inflow),
    };
    peak_on(
        way, run, end, marks, beds, roughness, rates, rain, inflow, depths, lasts, records, peaks,
        clocks,
    )
}

// The fresh run of a sheet that was read into the rooms, with its peaks at the start of theirs.
pub fn run_sheet_peaks(
    heading: Heading,
    marks: &[u8],
    beds: &[u32],
    roughness: &[u32],
    rates: &[u32],
    rain: &[u32],
    inflow: &[u32],
    depths: &mut [u32],
    peaks: &mut [u32],
    clocks: &mut [u32],
) -> Ran
    requires holds { Holds program_squares heading (rooms marks.now beds.now roughness.now rates.now depths.old rain.now inflow.now) }
    requires peaks_len { (length peaks.old ≡ program_squares) × (length clocks.old ≡ program_squares) }
    ensures { RunsSheetPeaks heading (parts_of heading (rooms marks.now beds.now roughness.now rates.now depths.old rain.now inflow.now)) depths.old peaks.old clocks.old result depths.new peaks.new clocks.new }
{
    let mut lasts = [0u32; PROGRAM_SQUARES];
    let mut records = [0u32; RECORD_ROOM];
    let run = fresh_run(heading.rules, 1);
    let squares = squares_of(heading.shape);
    let size = record_size(heading.shape);
    let rain_end = RAIN_WIDTH * heading.rain_rows;
    let inflow_end = INFLOW_WIDTH * heading.inflow_rows;
    run_peaks(
        heading.shape,
        heading.rules,
        run,
        heading.end,
        &marks[..squares],
        &beds[..squares],
        &roughness[..squares],
        &rates[..squares],
        &rain[..rain_end],
        &inflow[..inflow_end],
        &mut depths[..squares],
        &mut lasts[..squares],
        &mut records[..size],
        &mut peaks[..squares],
        &mut clocks[..squares],
    )
}

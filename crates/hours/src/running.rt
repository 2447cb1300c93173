// The run of a sheet with the time for which each square was wet.
ghost use Rattle.std.specs.Prelude.{◌≡◌, ℕ, ◌+◌, ◌-◌, ◌<◌, get_or, length, replicate};
ghost use Rattle.grid.specs.Squares.{squares};
ghost use Rattle.sheet.specs.Sheet.{checks_in, no_lasts, no_records, rooms};
ghost use Rattle.hours.specs.Inner.Wet.{RunsSheetWet, TimesFit, times_after, wet_for};

use adding::added::rows_apart;
use adding::way::Way;
use checks::fresh::fresh_run;
use flood::run::{Keeper, Ran, run_kept};
use grid::marks::is_closed;
use grid::squares::Shape;
use grid::walks::Walk;
use reckon::numbers::number;
use sheet::reading::Heading;

// A square is wet from 1 cm on, in µm.
const WET_DEPTH: u64 = 10_000;

// How much of a step's time a square counts as wet, by the depths at its end.
fn wet_for(lasted: u32, marks: &[u8], depths: &[u32], square: usize) -> u32
    requires { (square < length marks.now) × (square < length depths.now) }
    ensures { result ≡ wet_for lasted marks.now depths.now square }
{
    if is_closed(marks, square) {
        return 0;
    }
    if number(depths, square) < WET_DEPTH {
        return 0;
    }
    lasted
}

// Each square with the time of one step more.
fn add_wet(lasted: u32, marks: &[u8], depths: &[u32], times: &mut [u32])
    requires depths_len { (length depths.now ≡ length marks.now) × (length times.old ≡ length marks.now) }
    requires by_index { (i : ℕ) → i < length marks.now → get_or times.old i 0 + lasted < 4_294_967_296 }
    ensures { times.new ≡ times_after lasted marks.now depths.now times.old }
{
    for (square, time) in times.iter_mut().enumerate() {
        *time += wet_for(lasted, marks, depths, square);
    }
}

// The time for which each square was wet so far.
#[derive(Drop)]
struct Times<'a> {
    times: &'a mut [u32],
}

impl<'a> Keeper for Times<'a> {
    ghost fits = { λ p clock it. TimesFit p clock it.times.now };

    ghost keeps = { λ p depths before clock it after. (after.times.ghost_name ≡ it.times.ghost_name) × (after.times.now ≡ times_after (clock - before) p.marks depths it.times.now) };

    fn keep(&mut self, shape: Shape, marks: &[u8], depths: &[u32], before: u64, clock: u64) {
        let lasted = clock - before;
        add_wet(lasted as u32, marks, depths, self.times);
    }
}

// Lent are the parts of the rooms that belong to a sheet that was read well, no last leaving, a room for one record, and no times yet.
pub fn run_sheet_wet(
    heading: Heading,
    marks: &[u8],
    beds: &[u32],
    roughness: &[u32],
    rates: &[u32],
    rain: &[u32],
    inflow: &[u32],
    depths: &mut [u32],
    lasts: &mut [u32],
    records: &mut [u32],
    times: &mut [u32],
) -> Ran
    requires end_value { checks_in heading.shape heading.rules (rooms marks.now beds.now roughness.now rates.now depths.old rain.now inflow.now) heading.end ≡ 0 }
    requires lasts_value { (lasts.old ≡ no_lasts heading.shape heading.rules (rooms marks.now beds.now roughness.now rates.now depths.old rain.now inflow.now)) × (records.old ≡ no_records heading.shape heading.rules (rooms marks.now beds.now roughness.now rates.now depths.old rain.now inflow.now)) }
    requires times_value { times.old ≡ replicate (squares heading.shape) 0 }
    ensures { RunsSheetWet heading (rooms marks.now beds.now roughness.now rates.now depths.old rain.now inflow.now) result depths.new lasts.new records.new times.new }
{
    let shape = heading.shape;
    let rules = heading.rules;
    let run = fresh_run(rules, 1);
    let way = Way {
        walk: Walk::Wet,
        shape: shape,
        rules: rules,
        apart: rows_apart(inflow),
    };
    let mut kept = Times { times: times };
    run_kept(
        &mut kept,
        way,
        run,
        heading.end,
        marks,
        beds,
        roughness,
        rates,
        rain,
        inflow,
        depths,
        lasts,
        records,
    )
}

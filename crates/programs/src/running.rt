// The fresh run of a sheet to its end.
ghost use Rattle.std.specs.Prelude.{◌≡◌};
ghost use Rattle.sheet.specs.Sheet.{checks_in, no_lasts, no_records, rooms};
ghost use Rattle.programs.specs.Program.{RunsSheet};

use checks::fresh::fresh_run;
use flood::run::{Ran, run_to};
use grid::walks::Walk;
use sheet::reading::Heading;

// Lent are the parts of the rooms that belong to a sheet that was read well, no last leaving, and a room for one record.
pub fn run_sheet(
    heading: Heading,
    marks: &[u8],
    beds: &[u32],
    roughness: &[u32],
    rates: &[u32],
    rain: &[u32],
    inflow: &[u32],
    depths: &mut [u32],
    lasts: &mut [u32],
    records: &mut [u32],
) -> Ran
    requires end_value { checks_in heading.shape heading.rules (rooms marks.now beds.now roughness.now rates.now depths.old rain.now inflow.now) heading.end ≡ 0 }
    requires lasts_value { (lasts.old ≡ no_lasts heading.shape heading.rules (rooms marks.now beds.now roughness.now rates.now depths.old rain.now inflow.now)) × (records.old ≡ no_records heading.shape heading.rules (rooms marks.now beds.now roughness.now rates.now depths.old rain.now inflow.now)) }
    ensures { RunsSheet heading (rooms marks.now beds.now roughness.now rates.now depths.old rain.now inflow.now) result depths.new lasts.new records.new }
{
    let rules = heading.rules;
    let run = fresh_run(rules, 1);
    run_to(
        Walk::Wet,
        heading.shape,
        rules,
        run,
        heading.end,
        marks,
        beds,
        roughness,
        rates,
        rain,
        inflow,
        depths,
        lasts,
        records,
    )
}

// A run and a heading put into slices that are lent for them.
ghost use Rattle.std.specs.Prelude.{◌≡◌, length};
ghost use Rattle.exports.specs.Numbers.{heading_numbers, heading_size, run_numbers, run_size};

use ledger::runs::Run;
use sheet::reading::Heading;

// Puts a run into its six places.
pub fn put_run(run: Run, room: &mut [u64])
    requires { length room.old ≡ run_size }
    ensures { room.new ≡ run_numbers run }
{
    room[0] = run.clock;
    room[1] = run.length;
    room[2] = run.outflow;
    room[3] = run.kept as u64;
    room[4] = run.newest as u64;
    room[5] = run.soaked;
}

// Puts a sheet's heading into its twelve places.
pub(crate) fn put_heading(heading: Heading, room: &mut [u64])
    requires { length room.old ≡ heading_size }
    ensures { room.new ≡ heading_numbers heading }
{
    let shape = heading.shape;
    let rules = heading.rules;
    room[0] = shape.rows as u64;
    room[1] = shape.columns as u64;
    room[2] = rules.square_side;
    room[3] = rules.tolerance;
    room[4] = rules.shortest;
    room[5] = rules.longest;
    room[6] = rules.update;
    room[7] = rules.edge;
    room[8] = rules.edition;
    room[9] = heading.end;
    room[10] = heading.rain_rows as u64;
    room[11] = heading.inflow_rows as u64;
}

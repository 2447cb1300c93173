// The most and the least steps of a run, before it is made, under its plain name.
ghost use Rattle.exports.specs.Bounds.{ExportsBounds};

use exports::bounds;

// The most and the least steps of a run from a clock to an end, before it is made.
#[unsafe(no_mangle)]
pub extern "C" fn flood_step_bounds(rules: &[u64], clock: u64, end: u64, bounds: &mut [u64]) -> u32
    ensures { ExportsBounds clock end rules.now bounds.old result bounds.new }
{
    bounds::flood_step_bounds(rules, clock, end, bounds)
}

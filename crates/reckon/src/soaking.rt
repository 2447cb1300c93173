// What is due to soak into the ground of a square, by its soak rate and the clock.
ghost use Rattle.std.specs.Prelude.{◌≡◌, ◌*◌, ◌≤◌};
ghost use Rattle.reckon.specs.Ranges.{last_clock, most_soak_rate};
ghost use Rattle.reckon.specs.Soaking.{SoakDue, Soaks, soak_by};

use crate::tables::HOUR;

// What is due by a clock, in µm.
fn soak_by(rate: u64, t: u64) -> u64
    requires { (rate ≤ most_soak_rate) × (t ≤ last_clock) }
    ensures { result ≡ soak_by rate t }
{
    rate * t / HOUR
}

// What is due between two clocks: the amount by the end less the amount by the start. Ground that does not soak is not worked.
pub fn soak_due(rate: u64, start: u64, end: u64) -> u64
    requires { Soaks rate start end }
    ensures { SoakDue rate start end result }
{
    if rate == 0 {
        return 0;
    }
    soak_by(rate, end) - soak_by(rate, start)
}

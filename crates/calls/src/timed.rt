// The whole of `hours_wet`, made as the program makes it: for how long each square of a sheet's run was wet.
ghost use Rattle.calls.specs.Timed.{AfterHours};

use hours::hours::hours_of;
use programs::limits::OUT_ROOM;

pub fn after_hours_of(text: &[u8], out: &mut [u8; OUT_ROOM]) -> usize
    ensures { AfterHours text.now out.old out.new result }
{
    hours_of(text, out)
}

// The whole of `meadow`, made as the program makes it: run in slices it gives what the run in one gives (document 01, "The sheet and its program").
ghost use Rattle.calls.specs.Library.{AfterMeadow};

use programs::limits::OUT_ROOM;
use slices::meadow::meadow_told;

pub fn after_meadow_told(rt: &impl Eprint, text: &[u8], out: &mut [u8; OUT_ROOM]) -> usize
    ensures { AfterMeadow text.now out.old out.new result }
{
    meadow_told(rt, text, out)
}

// The call that repairs a sheet (document 02, #111), made as it is lent, with a contract in the document's words: what specs/Repairing.antt says
// that its caller has.
ghost use Rattle.calls.specs.Repairing.{AfterRepair};

use holes::repairing::{REPAIR_ROOM, repair_of};

pub fn after_repair_of(text: &[u8], out: &mut [u8; REPAIR_ROOM]) -> usize
    ensures { AfterRepair text.now out.old out.new result }
{
    repair_of(text, out)
}
